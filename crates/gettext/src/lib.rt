// The four lookups in a catalog: the file, lent, and the record that loading returned. A port of lib.rs. Each is two functions: one
// says by value why, and so which text answers; the other hands back that text, a part of the file or of the caller's own.
#![tactic(auto)]

ghost use Rattle.std.specs.Prelude.{◌≡◌, true};
ghost use Rattle.rules.specs.Pool.{pool_in};
ghost use Rattle.rules.specs.Answer.{rated_of, fit_of};
ghost use Rattle.lookup_scan.specs.Keys.{key_of, bytes_of};
ghost use Rattle.lookup.specs.Text.{singular_text, plural_text, IsText};
ghost use Rattle.gettext.specs.Catalog.{pool_of, found, counted};

use container::Record;
use lookup::Reason;
use lookup_scan::Key;
use rules::{NoTree, Nodes, Rule};

// The key of an id by itself, and that of an id in a context.
fn alone<'a>(id: &'a [u8]) -> Key<'a>
    ensures { bytes_of result ≡ id.now }
{
    Key { context: None, id }
}

fn within<'a>(context: &'a [u8], id: &'a [u8]) -> Key<'a>
    ensures { bytes_of result ≡ key_of true context.now id.now }
{
    Key {
        context: Some(context),
        id,
    }
}

// The rule of a catalog.
fn rule_of<'a>(catalog: &'a Record) -> Rule<'a>
    ensures nodes { pool_in result.nodes ≡ pool_of catalog.now }
    ensures count { result.count ≡ catalog.now.nodes }
    ensures root { result.root ≡ catalog.now.root }
{
    let nodes = Nodes {
        codes: &catalog.codes,
        places: &catalog.places,
        values: &catalog.values,
    };
    Rule {
        nodes,
        count: catalog.nodes,
        root: catalog.root,
    }
}

// Why `gettext` answers as it does.
pub fn answer_gettext(file: &[u8], catalog: Record, id: &[u8]) -> Reason
    ensures { result ≡ found file.now catalog id.now }
{
    lookup::find(file, catalog.tables, alone(id))
}

// Why `pgettext` does: the key is the context, byte 4 and the id.
pub fn answer_pgettext(file: &[u8], catalog: Record, context: &[u8], id: &[u8]) -> Reason
    ensures { result ≡ found file.now catalog (key_of true context.now id.now) }
{
    lookup::find(file, catalog.tables, within(context, id))
}

// Why `ngettext` does for a count.
pub fn answer_ngettext(file: &[u8], catalog: Record, id: &[u8], n: u64) -> Reason
    ensures { result ≡ counted file.now catalog id.now n }
{
    let rule = rule_of(&catalog);
    lookup::nfind(file, catalog.tables, rule, alone(id), n)
}

// Why `npgettext` does for a count.
pub fn answer_npgettext(file: &[u8], catalog: Record, context: &[u8], id: &[u8], n: u64) -> Reason
    ensures { result ≡ counted file.now catalog (key_of true context.now id.now) n }
{
    let rule = rule_of(&catalog);
    lookup::nfind(file, catalog.tables, rule, within(context, id), n)
}

// The translation of an id, or the id.
pub fn gettext<'a>(file: &'a [u8], catalog: Record, id: &'a [u8]) -> &'a [u8]
    ensures { IsText file.entry id.entry id.entry (singular_text (found file.now catalog id.now)) result }
{
    let reason = answer_gettext(file, catalog, id);
    lookup::text_of(file, id, id, lookup::singular_text(reason))
}

// The translation of an id in a context, or the id.
pub fn pgettext<'a>(file: &'a [u8], catalog: Record, context: &'a [u8], id: &'a [u8]) -> &'a [u8]
    ensures { IsText file.entry id.entry id.entry
        (singular_text (found file.now catalog (key_of true context.now id.now))) result }
{
    let reason = answer_pgettext(file, catalog, context, id);
    lookup::text_of(file, id, id, lookup::singular_text(reason))
}

// The form of a translation that the catalog's rule names for a count, or the id for one and the plural id otherwise.
pub fn ngettext<'a>(
    file: &'a [u8],
    catalog: Record,
    id: &'a [u8],
    plural_id: &'a [u8],
    n: u64,
) -> &'a [u8]
    ensures { IsText file.entry id.entry plural_id.entry (plural_text n (counted file.now catalog id.now n)) result }
{
    let reason = answer_ngettext(file, catalog, id, n);
    lookup::text_of(file, id, plural_id, lookup::plural_text(reason, n))
}

// The same of an id in a context.
pub fn npgettext<'a>(
    file: &'a [u8],
    catalog: Record,
    context: &'a [u8],
    id: &'a [u8],
    plural_id: &'a [u8],
    n: u64,
) -> &'a [u8]
    ensures { IsText file.entry id.entry plural_id.entry
        (plural_text n (counted file.now catalog (key_of true context.now id.now) n)) result }
{
    let reason = answer_npgettext(file, catalog, context, id, n);
    lookup::text_of(file, id, plural_id, lookup::plural_text(reason, n))
}

// The lowest and the highest form of the catalog's rule.
pub fn rating(catalog: Record) -> Result<Option<(u64, u64)>, NoTree>
    ensures { result ≡ rated_of (pool_of catalog) catalog.nodes catalog.root }
{
    rules_range::rating_of(rule_of(&catalog))
}

// Whether the catalog's rule is rated and names forms below k alone.
pub fn fits(catalog: Record, k: u64) -> Result<bool, NoTree>
    ensures { result ≡ fit_of (pool_of catalog) catalog.nodes catalog.root k }
{
    rules_range::fits(rule_of(&catalog), k)
}
