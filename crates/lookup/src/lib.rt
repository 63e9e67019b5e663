// Lookups: why a lookup answers as it does, and which text answers. From lib.rs: `gettext`, `ngettext`, `pgettext` and `npgettext`; nothing
// is copied. What follows from the entry with the key is said once, however that entry is found.
#![tactic(auto)]

ghost use Rattle.std.specs.Prelude.{◌≡◌, Ok};
ghost use Rattle.rules.specs.Pool.{pool_in};
ghost use Rattle.rules.specs.Answer.{resolved_of};
ghost use Rattle.lookup_scan.specs.Keys.{bytes_of, last_with};
ghost use Rattle.lookup_index.specs.Index.{sought_in};
ghost use Rattle.lookup.specs.Lookup.{by_entry, by_rule, few_slots, by_slots, singular, plural, singular_in, plural_in, number};
ghost use Rattle.lookup.specs.Text.{text_or, singular_text, plural_text, IsText};

use container_layout::Tables;
use lookup_index::TooFewSlots;
use lookup_scan::{Hit, Key};
use refusal::Error;
use rules::{NoForm, Rule};

// Why a lookup answers as it does, the first of these that holds: the file's length is not the record's; the rule's nodes are no tree; fewer
// slots are lent than the index uses, where one is; the rule takes a remainder by zero; no entry has the key; the entry stores no segment of
// that form; the entry, the form, and the segment's start and length.
#[derive(Clone, Copy)]
pub enum Reason {
    StaleLength,
    NoTree,
    IndexRoom,
    ZeroModulus,
    NoEntry,
    TooFewSegments(usize),
    Answered(usize, u64, usize, usize),
}

// The text that answers: a segment of the file, its start and its length, or the caller's id or plural id.
#[derive(Clone, Copy)]
pub enum Text {
    Segment(usize, usize),
    Id,
    PluralId,
}

// What follows from the entry with the key: the segment that a form names.
fn by_entry(file: &[u8], hit: Option<Hit>, form: u64) -> Reason
    ensures { result ≡ by_entry file.now form hit }
{
    let Some(found) = hit else {
        return Reason::NoEntry;
    };
    let Some(segment) = container_layout::segment_at(file, found.start, found.len, form) else {
        return Reason::TooFewSegments(found.entry);
    };
    Reason::Answered(found.entry, form, segment.start, segment.len)
}

// What follows from the rule's value, and where it is a form from the entry with the key.
fn by_rule(file: &[u8], value: Result<u64, NoForm>, hit: Option<Hit>) -> Reason
    ensures { result ≡ by_rule file.now value hit }
{
    match value {
        Ok(form) => by_entry(file, hit, form),
        Err(NoForm::ZeroModulus) => Reason::ZeroModulus,
        Err(NoForm::NoTree) => Reason::NoTree,
    }
}

// Too few slots are refused before a remainder by zero, and after nodes that are no tree.
fn few_slots(value: Result<u64, NoForm>) -> Reason
    ensures { result ≡ few_slots value }
{
    if let Err(NoForm::NoTree) = value {
        return Reason::NoTree;
    }
    Reason::IndexRoom
}

// The same as `by_rule`, of what was sought in lent slots.
fn by_slots(
    file: &[u8],
    value: Result<u64, NoForm>,
    sought: Result<Option<Hit>, TooFewSlots>,
) -> Reason
    ensures { result ≡ by_slots file.now value sought }
{
    let Ok(hit) = sought else {
        return few_slots(value);
    };
    by_rule(file, value, hit)
}

// A lookup without a count: `gettext`, and with a context `pgettext`.
#[tactic(auto, using(crate::proofs::Reasons::stale, crate::proofs::Reasons::by_first))]
pub fn find(file: &[u8], t: Tables, key: Key<'_>) -> Reason
    ensures { result ≡ singular file.now t (last_with file.now t (bytes_of key.entry)) }
{
    if file.len() != t.length {
        return Reason::StaleLength;
    }
    let hit = lookup_scan::last_hit(file, t, key);
    by_entry(file, hit, 0)
}

// A lookup with a count: `ngettext`, and with a context `npgettext`. The rule is resolved before the key is sought.
#[tactic(auto, using(crate::proofs::Reasons::stale, crate::proofs::Reasons::by_no_form, crate::proofs::Reasons::by_form))]
pub fn nfind(file: &[u8], t: Tables, rule: Rule<'_>, key: Key<'_>, n: u64) -> Reason
    ensures { result ≡ plural file.now t (resolved_of (pool_in rule.entry.nodes) rule.entry.count rule.entry.root n)
        (last_with file.now t (bytes_of key.entry)) }
{
    if t.length != file.len() {
        return Reason::StaleLength;
    }
    let resolved = rules_value::resolve(rule, n);
    if resolved.is_err() {
        return by_rule(file, resolved, None);
    }
    let hit = lookup_scan::last_hit(file, t, key);
    by_rule(file, resolved, hit)
}

// A lookup without a count in lent slots. It is no case of `find`, since only here may the slots be too few, and the scan of `find` needs none.
#[tactic(auto, using(crate::proofs::Reasons::stale_in, crate::proofs::Reasons::by_slots_lem))]
pub fn find_indexed(file: &[u8], t: Tables, slots: &[u32], key: Key<'_>) -> Reason
    ensures { result ≡ singular_in file.now t (sought_in file.now t slots.now (bytes_of key.entry)) }
{
    let size = file.len();
    if size != t.length {
        return Reason::StaleLength;
    }
    let sought = lookup_index::find(file, t, slots, key);
    by_slots(file, Ok(0), sought)
}

// A lookup with a count in lent slots; the key is sought whatever the rule names, since a search in slots is a few steps.
#[tactic(auto, using(crate::proofs::Reasons::stale_in, crate::proofs::Reasons::by_slots_lem))]
pub fn nfind_indexed(
    file: &[u8],
    t: Tables,
    slots: &[u32],
    rule: Rule<'_>,
    key: Key<'_>,
    n: u64,
) -> Reason
    ensures { result ≡ plural_in file.now t (resolved_of (pool_in rule.entry.nodes) rule.entry.count rule.entry.root n)
        (sought_in file.now t slots.now (bytes_of key.entry)) }
{
    let size = file.len();
    if t.length != size {
        return Reason::StaleLength;
    }
    let value = rules_value::resolve(rule, n);
    let sought = lookup_index::find(file, t, slots, key);
    by_slots(file, value, sought)
}

// Its number, as SPEC 9 and 10.2 have it.
pub fn number_of(reason: Reason) -> u32
    ensures { result ≡ number reason }
{
    match reason {
        Reason::StaleLength => refusal::number_of(Error::BadRecord),
        Reason::NoTree => refusal::number_of(Error::BadRecord),
        Reason::IndexRoom => refusal::number_of(Error::IndexRoom),
        Reason::ZeroModulus => refusal::number_of(Error::ZeroModulus),
        Reason::NoEntry => 0,
        Reason::TooFewSegments(_) => 0,
        Reason::Answered(..) => 0,
    }
}

// The segment, or else the caller's own text.
fn text_or(reason: Reason, own: Text) -> Text
    ensures { result ≡ text_or own reason }
{
    let Reason::Answered(_, _, start, len) = reason else {
        return own;
    };
    Text::Segment(start, len)
}

// Without a count the caller's own text is the id.
pub fn singular_text(reason: Reason) -> Text
    ensures { result ≡ singular_text reason }
{
    text_or(reason, Text::Id)
}

// With a count it is the id for one, and the plural id otherwise.
#[tactic(auto, using(crate::proofs::Said::for_one, crate::proofs::Said::for_many))]
pub fn plural_text(reason: Reason, n: u64) -> Text
    ensures { result ≡ plural_text n reason }
{
    if n == 1 {
        return text_or(reason, Text::Id);
    }
    text_or(reason, Text::PluralId)
}

// That text itself: a part of the file, or what the caller lent. A segment that does not lie in the file, as no lookup in it answers, is
// the id.
pub fn text_of<'a>(file: &'a [u8], id: &'a [u8], plural_id: &'a [u8], text: Text) -> &'a [u8]
    ensures { IsText file.entry id.entry plural_id.entry text result }
{
    match text {
        Text::Segment(start, len) => {
            if file.len() < start {
                return id;
            }
            if file.len() - start < len {
                return id;
            }
            let end = start + len;
            &file[start..end]
        }
        Text::Id => id,
        Text::PluralId => plural_id,
    }
}
