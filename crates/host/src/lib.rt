// What a host in C or Rust says and is told: numbers, in records with the layout of C; inside, flags, rules, keys and answers have types of
// their own. A flag is a number, any but 0 being yes, so that no record and no call that a host can make is senseless.
#![tactic(auto)]

ghost use Rattle.std.specs.Prelude.{◌≡◌, ◌<◌, ◌%◌};
ghost use Rattle.rules.specs.Value.{truth};
ghost use Rattle.lookup_scan.specs.Keys.{key_of, bytes_of};
ghost use Rattle.host.specs.Explained.{explained_of};
ghost use Rattle.host.specs.Host.{is_set, reading_of, options_of, head_of, tables_in, rule_in, key_in, loaded_of, own_for, fallback, answer_of, rating_of, fits_of, value_of, written_of};

use container::{Loading, Options};
use container_layout::Tables;
use lookup::Reason;
use lookup_scan::Key;
use lookup_why::Why;
use reading_rule::Reading;
use refusal::Error;
use rules::{NoForm, NoTree, Nodes, Rule};
use rules_text::Unwritten;

// How a load went: the number; where a refused one failed, the side (0 none, 1 original, 2 translation, 3 header, 4 rule), whether (1) an entry
// is named, and its index; whether (1) the header gives a count of forms, and that count, 0 where it does not; and the head of the record, that of
// the empty catalog where the number is not 0. A head is the
// file's length, how many entries it has, where the originals' table and the translations' lie, whether (not 0) the highest byte of a word
// comes first, how many nodes the rule has, and its root. The rule's nodes are arrays beside it: codes, operand places, values.
#[repr(C)]
#[derive(Clone, Copy)]
pub struct Loaded {
    pub number: u32,
    pub side: u32,
    pub entered: u32,
    pub counted: u32,
    pub entry: usize,
    pub forms: u64,
    pub head: [usize; 7],
}

// The text that answers: 0 is the segment of the file at start, 1 the caller's id, 2 the caller's plural id.
#[repr(C)]
#[derive(Clone, Copy)]
pub struct Answer {
    pub number: u32,
    pub which: u32,
    pub entry: usize,
    pub form: u64,
    pub start: usize,
    pub len: usize,
}

// The lowest and the highest form, where the rule is rated.
#[repr(C)]
#[derive(Clone, Copy)]
pub struct Rating {
    pub number: u32,
    pub rated: u32,
    pub lowest: u64,
    pub highest: u64,
}

// Whether a rule fits.
#[repr(C)]
#[derive(Clone, Copy)]
pub struct Fits {
    pub number: u32,
    pub fits: u32,
}

// How long the text is that was written, beside number 0.
#[repr(C)]
#[derive(Clone, Copy)]
pub struct Written {
    pub number: u32,
    pub len: usize,
}

// The form that a rule names for a count.
#[repr(C)]
#[derive(Clone, Copy)]
pub struct Form {
    pub number: u32,
    pub form: u64,
}

// A flag, from a number.
fn is_set(flag: usize) -> bool
    ensures { result ≡ is_set flag }
{
    flag != 0
}

// A flag as a number.
pub fn flag_of(b: bool) -> u32
    ensures { result ≡ truth b }
{
    u32::from(b)
}

fn reading_of(standard: u32) -> Reading
    ensures { result ≡ reading_of standard }
{
    match standard {
        0 => Reading::Shipped,
        _ => Reading::Standard,
    }
}

// How to load, from four flags.
pub fn options_of(forced: u32, standard: u32, utf8: u32, fit: u32) -> Options
    ensures { result ≡ options_of forced standard utf8 fit }
{
    Options {
        forced: forced != 0,
        reading: reading_of(standard),
        utf8: utf8 != 0,
        fit: fit != 0,
    }
}

// The head of a record with those tables, whose rule has that many nodes, the last of them the root.
pub fn head_of(t: Tables, nodes: usize) -> [usize; 7]
    requires { 0 < nodes }
    ensures is { result ≡ head_of t nodes }
    ensures kept { tables_in result ≡ t }
{
    let count = container_layout::wide(t.count);
    let originals = container_layout::wide(t.originals);
    let translations = container_layout::wide(t.translations);
    [
        t.length,
        count,
        originals,
        translations,
        usize::from(t.big),
        nodes,
        nodes - 1,
    ]
}

// How a load went.
pub fn loaded_of(loading: Loading) -> Loaded
    requires { 0 < loading.nodes }
    ensures is { result ≡ loaded_of loading }
    ensures kept { tables_in result.head ≡ loading.tables }
{
    let outcome = loading.outcome;
    let tables = loading.tables;
    let forms = loading.forms;
    let place = refusal::outcome_place(outcome);
    Loaded {
        number: refusal::outcome_number(outcome),
        side: refusal::side_number(place),
        entered: flag_of(refusal::names_entry(place)),
        counted: flag_of(forms.is_some()),
        entry: refusal::entry_index(place),
        forms: forms.unwrap_or(0),
        head: head_of(tables, loading.nodes),
    }
}

// A word of a file has 32 bits: of a larger number the low 32 count. (An `as` alone may lose no bits.)
fn low(x: usize) -> u32
    ensures { result ≡ x % 4294967296 }
{
    (x % 4294967296) as u32
}

// The tables of a head that a host lends.
pub fn tables_in<'a>(head: &'a [usize; 7]) -> Tables
    ensures { result ≡ tables_in head.now }
{
    Tables {
        length: head[0],
        big: is_set(head[4]),
        count: low(head[1]),
        originals: low(head[2]),
        translations: low(head[3]),
    }
}

// The rule of a record that a host lends, by its head and its three arrays.
pub fn rule_in<'a>(
    head: &'a [usize; 7],
    codes: &'a [u8; 512],
    places: &'a [u16; 1024],
    values: &'a [u64; 512],
) -> Rule<'a>
    ensures { result ≡ rule_in head.now codes.entry places.entry values.entry }
{
    let nodes = Nodes {
        codes,
        places,
        values,
    };
    Rule {
        nodes,
        count: head[5],
        root: head[6],
    }
}

// The key of a lookup: the id, and the context where the flag says that there is one.
pub fn key_in<'a>(given: u32, context: &'a [u8], id: &'a [u8]) -> Key<'a>
    ensures is { result ≡ key_in given context.entry id.entry }
    ensures bytes { bytes_of result ≡ key_of (is_set given) context.now id.now }
{
    let context = if given == 0 { None } else { Some(context) };
    Key { context, id }
}

// The caller's own text for a count: the id for one, the plural id otherwise. It is the number that C is told, here and below, and no enum: an
// answer may be asked with any number.
pub fn own_for(n: u64) -> u32
    ensures { result ≡ own_for n }
{
    if n == 1 { 1 } else { 2 }
}

fn fallback(number: u32, own: u32) -> Answer
    ensures { result ≡ fallback number own }
{
    Answer {
        number,
        which: own,
        entry: 0,
        form: 0,
        start: 0,
        len: 0,
    }
}

// What a lookup answers, by its reason; `own` is the caller's own text.
pub fn answer_of(reason: Reason, own: u32) -> Answer
    ensures { result ≡ answer_of own reason }
{
    let Reason::Answered(entry, form, start, len) = reason else {
        return fallback(lookup::number_of(reason), own);
    };
    Answer {
        number: 0,
        which: 0,
        entry,
        form,
        start,
        len,
    }
}

pub fn rating_of(rated: Result<Option<(u64, u64)>, NoTree>) -> Rating
    ensures { result ≡ rating_of rated }
{
    match rated {
        Ok(Some((lowest, highest))) => Rating {
            number: 0,
            rated: 1,
            lowest,
            highest,
        },
        Ok(None) => Rating {
            number: 0,
            rated: 0,
            lowest: 0,
            highest: 0,
        },
        Err(NoTree) => Rating {
            number: refusal::number_of(Error::BadRecord),
            rated: 0,
            lowest: 0,
            highest: 0,
        },
    }
}

pub fn fits_of(fit: Result<bool, NoTree>) -> Fits
    ensures { result ≡ fits_of fit }
{
    match fit {
        Ok(fits) => Fits {
            number: 0,
            fits: flag_of(fits),
        },
        Err(NoTree) => Fits {
            number: refusal::number_of(Error::BadRecord),
            fits: 0,
        },
    }
}

pub fn form_of(resolved: Result<u64, NoForm>) -> Form
    ensures { result ≡ value_of resolved }
{
    match resolved {
        Ok(form) => Form { number: 0, form },
        Err(NoForm::ZeroModulus) => Form {
            number: refusal::number_of(Error::ZeroModulus),
            form: 0,
        },
        Err(NoForm::NoTree) => Form {
            number: refusal::number_of(Error::BadRecord),
            form: 0,
        },
    }
}

pub fn written_of(writing: Result<usize, Unwritten>) -> Written
    ensures { result ≡ written_of writing }
{
    match writing {
        Ok(len) => Written { number: 0, len },
        Err(Unwritten::TooLong) => Written {
            number: refusal::number_of(Error::RuleTooLong),
            len: 0,
        },
        Err(Unwritten::NoTree) => Written {
            number: refusal::number_of(Error::BadRecord),
            len: 0,
        },
    }
}

// Why a lookup with a count answers as it does, and its answer: the kind, which is the reason's place in `lookup_why::Why`, from 1 on; the
// number, and which text, as in `Answer`; then what the reason tells, 0 where it does not.
#[repr(C)]
#[derive(Clone, Copy)]
pub struct Explained {
    pub kind: u32,
    pub number: u32,
    pub which: u32,
    pub node: usize,
    pub entry: usize,
    pub stored: usize,
    pub form: u64,
    pub start: usize,
    pub len: usize,
}

// The reason in numbers; `own` is the caller's own text.
pub fn explained_of(why: Why, own: u32) -> Explained
    ensures { result ≡ explained_of own why }
{
    let reason = lookup_why::reason_of(why);
    let untold = Explained {
        kind: 0,
        number: lookup::number_of(reason),
        which: own,
        node: 0,
        entry: 0,
        stored: 0,
        form: 0,
        start: 0,
        len: 0,
    };
    match why {
        Why::StaleLength => Explained { kind: 1, ..untold },
        Why::NoTree => Explained { kind: 2, ..untold },
        Why::ZeroDivisor(node) => Explained {
            kind: 3,
            node,
            ..untold
        },
        Why::NoEntry => Explained { kind: 4, ..untold },
        Why::TooFewSegments(entry, stored, form) => Explained {
            kind: 5,
            entry,
            stored,
            form,
            ..untold
        },
        Why::Answered(entry, form, start, len) => Explained {
            kind: 6,
            which: 0,
            entry,
            form,
            start,
            len,
            ..untold
        },
    }
}
