// Loading a catalog where it lies: a record, or the refusal. A port of parser.rs: `parse_catalog`. The map of messages is the file itself, and
// the resolver is the rule's nodes, which go into arrays that the caller lends, so that they are written once.
#![tactic(auto)]

ghost use Rattle.std.specs.Prelude.{◌≡◌, ◌-◌, ◌<◌};
ghost use Rattle.rules.specs.Lent.{Keeps, pool_left};
ghost use Rattle.rules.specs.Pool.{pool, pool_in};
ghost use Rattle.container.specs.Catalog.{no_tables, opened, load};
ghost use Rattle.container.specs.Promise.{Empty, Empties, Loads, Opens};
ghost use Rattle.container.specs.Private.{Gives, fits_in, rest_from};

use container_layout::Tables;
use reading_rule::Reading;
use refusal::{Error, Refusal, Where};
use rules::{Lent, Nodes, Rule};

// Whether a forced rule is given, by which reading rules are read, whether UTF-8 is forced, and whether the rule has to fit the header's count.
// `forced` is a flag beside the rule's text, and no Option of it, since the interface to C gives a flag and a text.
#[derive(Clone, Copy)]
pub struct Options {
    pub forced: bool,
    pub reading: Reading,
    pub utf8: bool,
    pub fit: bool,
}

// What a lookup needs beside the file: its tables, and the rule's nodes. And the header's count of forms, which no lookup looks at.
#[derive(Clone, Copy)]
pub struct Record {
    pub tables: Tables,
    pub codes: [u8; 512],
    pub places: [u16; 1024],
    pub values: [u64; 512],
    pub nodes: usize,
    pub root: usize,
    pub forms: Option<u64>,
}

// How a load went: the tables, those of the empty catalog where it is refused, how many nodes the rule in the arrays has, and the count.
#[derive(Clone, Copy)]
pub struct Loading {
    pub outcome: Result<(), Refusal>,
    pub tables: Tables,
    pub nodes: usize,
    pub forms: Option<u64>,
}

// The same with the rule, as a record by value.
#[derive(Clone, Copy)]
pub struct Loaded {
    pub outcome: Result<(), Refusal>,
    pub record: Record,
}

// What the stages of a load give: the tables, how many nodes the rule in the arrays has, and the count.
#[derive(Clone, Copy)]
struct Opened {
    tables: Tables,
    nodes: usize,
    forms: Option<u64>,
}

fn no_tables() -> Tables
    ensures { result ≡ no_tables }
{
    Tables {
        length: 0,
        big: false,
        count: 0,
        originals: 0,
        translations: 0,
    }
}

// The empty catalog: no entries, the default rule, and no count. Its root is its last node.
pub fn empty() -> Record
    ensures { Empty result }
{
    let mut codes = [0u8; 512];
    let mut places = [0u16; 1024];
    let mut values = [0u64; 512];
    let mut lent = Lent {
        codes: &mut codes,
        places: &mut places,
        values: &mut values,
    };
    let nodes = lent.put_default();
    Record {
        tables: no_tables(),
        codes,
        places,
        values,
        nodes,
        root: nodes - 1,
        forms: None,
    }
}

// The entries after entry 0, up to the first that is refused.
fn parse_rest(file: &[u8], t: Tables) -> Result<(), Refusal>
    ensures { result ≡ rest_from file.now t (t.count - 1) 1 }
{
    for i in 1..container_layout::wide(t.count) {
        container_messages::parse_entry(file, t, i)?;
    }
    Ok(())
}

// The empty catalog, beside an outcome: what a refused load leaves, whatever was forced.
fn empty_lent(outcome: Result<(), Refusal>, lent: &mut Lent<'_>) -> Loading
    ensures lent { Keeps lent.old lent.new }
    ensures empties { Empties outcome (pool_left lent.new) result }
{
    let nodes = lent.put_default();
    Loading {
        outcome,
        tables: no_tables(),
        nodes,
        forms: None,
    }
}

// The same in arrays lent one by one, as here and in `load_into` the interface to C names them.
pub fn empty_into(
    outcome: Result<(), Refusal>,
    codes: &mut [u8; 512],
    places: &mut [u16; 1024],
    values: &mut [u64; 512],
) -> Loading
    ensures { Empties outcome (pool codes.new places.new values.new) result }
{
    let mut lent = Lent {
        codes,
        places,
        values,
    };
    empty_lent(outcome, &mut lent)
}

// Every stage of a load but the last test. The rule's nodes are what the arrays then hold.
fn open_into(
    file: &[u8],
    rule: &[u8],
    options: Options,
    lent: &mut Lent<'_>,
) -> Result<Opened, Refusal>
    ensures lent { Keeps lent.old lent.new }
    ensures gives { Gives (opened options rule.now file.now) (pool_left lent.new) result }
{
    let reading = options.reading;
    let forced = container_rule::parse_forced(rule, options.forced, reading, lent)?;
    let tables = container_head::parse_head(file).map_err(|e| refusal::at(Where::File, e))?;
    let first = container_rule::parse_first(file, tables, options.forced, options.utf8);
    let nodes = container_rule::rule_of(file, first, forced, reading, lent)?;
    parse_rest(file, tables)?;
    Ok(Opened {
        tables,
        nodes,
        forms: container_rule::forms_of(first),
    })
}

// Whether a count is given, and the rule of so many nodes fits it.
fn fits(nodes: Nodes<'_>, count: usize, forms: Option<u64>) -> bool
    requires { 0 < count }
    ensures { result ≡ fits_in (pool_in nodes.entry) count forms }
{
    let Some(k) = forms else {
        return false;
    };
    let root = count - 1;
    rules_range::fits(Rule { nodes, count, root }, k).unwrap_or(false)
}

// Every stage. That the rule fits the count is tested last, where the options ask for it.
fn test_into(
    file: &[u8],
    rule: &[u8],
    options: Options,
    lent: &mut Lent<'_>,
) -> Result<Opened, Refusal>
    ensures lent { Keeps lent.old lent.new }
    ensures gives { Gives (load options rule.now file.now) (pool_left lent.new) result }
{
    let opened = open_into(file, rule, options, lent)?;
    if options.fit && !fits(lent.nodes(), opened.nodes, opened.forms) {
        return Err(refusal::at(Where::File, Error::NotFit));
    }
    Ok(opened)
}

// The load: what the stages give, or the empty catalog.
fn load_lent(file: &[u8], rule: &[u8], options: Options, lent: &mut Lent<'_>) -> Loading
    ensures lent { Keeps lent.old lent.new }
    ensures loads { Loads (load options rule.now file.now) (pool_left lent.new) result }
{
    match test_into(file, rule, options, lent) {
        Ok(opened) => Loading {
            outcome: Ok(()),
            tables: opened.tables,
            nodes: opened.nodes,
            forms: opened.forms,
        },
        Err(refusal) => empty_lent(Err(refusal), lent),
    }
}

// Loads the catalog that lies in the file. `rule` is the forced rule's text, where the options say that one is given. The nodes of the rule
// that counts, the default where the load is refused, are what the arrays then hold.
pub fn load_into<'a>(
    file: &'a [u8],
    rule: &'a [u8],
    options: Options,
    codes: &mut [u8; 512],
    places: &mut [u16; 1024],
    values: &mut [u64; 512],
) -> Loading
    ensures { Loads (load options rule.now file.now) (pool codes.new places.new values.new) result }
{
    let mut lent = Lent {
        codes,
        places,
        values,
    };
    load_lent(file, rule, options, &mut lent)
}

// The same as a record by value. The root is the rule's last node.
pub fn load<'a>(file: &'a [u8], rule: &'a [u8], options: Options) -> Loaded
    ensures { Opens (load options rule.now file.now) result }
{
    let mut codes = [0u8; 512];
    let mut places = [0u16; 1024];
    let mut values = [0u64; 512];
    let loading = load_into(file, rule, options, &mut codes, &mut places, &mut values);
    Loaded {
        outcome: loading.outcome,
        record: Record {
            tables: loading.tables,
            codes,
            places,
            values,
            nodes: loading.nodes,
            root: loading.nodes - 1,
            forms: loading.forms,
        },
    }
}
