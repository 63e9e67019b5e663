// Why a lookup with a count answers as it does, with what support asks for: the node, the entry, how many forms it stores.
#![tactic(auto)]

ghost use Rattle.std.specs.Prelude.{◌≡◌, ◌≤◌, ◌==◌, length, count_by};
ghost use Rattle.text.specs.Cut.{cut};
ghost use Rattle.rules.specs.Pool.{pool_in};
ghost use Rattle.rules_zero.specs.Zero.{traced_of};
ghost use Rattle.lookup_scan.specs.Keys.{bytes_of, last_with};
ghost use Rattle.lookup_why.specs.Why.{stored, by_entry, by_rule, why, reason_of};

use container_layout::Tables;
use lookup::Reason;
use lookup_scan::{Hit, Key};
use rules::Rule;
use rules_zero::Fault;

// The first of these that holds: the file's length is not the record's; the rule's nodes are no tree; the rule divides by zero, at a node; no
// entry has the key; the entry stores fewer segments than the form needs; the entry, the form, and the segment's start in the file and length.
#[derive(Clone, Copy)]
pub enum Why {
    StaleLength,
    NoTree,
    ZeroDivisor(usize),
    NoEntry,
    TooFewSegments(usize, usize, u64),
    Answered(usize, u64, usize, usize),
}

// How many bytes are counted at once: by 16, and no more than a byte can count.
const BLOCK: usize = 192;

// How many NULs a block has. They are added up in a byte and not met one by one, so that the machine takes 16 bytes at once.
fn nuls_in(block: &[u8]) -> u8
    requires { length block.now ≤ 255 }
    ensures { result ≡ count_by (λ b. b == 0) block.now }
{
    let mut nuls = 0;
    for b in block {
        nuls += u8::from(*b == 0);
    }
    nuls
}

// How many segments a translation has: one more than it has NULs. On from NUL to NUL, but those of a block are counted at once.
fn count_in(translation: &[u8]) -> usize
    ensures { result ≡ length (cut 0 translation.now) }
{
    let mut count = 1;
    let mut at = text::find_byte(translation, 0);
    // on by a block that begins with a NUL
    while at < translation.len() {
        let end = translation.len().min(at + BLOCK);
        count += usize::from(nuls_in(&translation[at..end]));
        at = text::find_byte_from(translation, end, 0);
    }
    count
}

// How many segments the translation at a place stores.
#[tactic(auto, using(crate::proofs::Counted::none_stored, crate::proofs::Counted::all_stored))]
fn stored_at(file: &[u8], start: usize, len: usize) -> usize
    ensures { result ≡ stored file.now start len }
{
    if file.len() < start {
        return 0;
    }
    if file.len() - start < len {
        return 0;
    }
    let end = start + len;
    count_in(&file[start..end])
}

// What follows from the entry with the key: the segment that a form names. Its place is counted from the file's first byte. This and `by_rule` are
// those of `lookup` with more told; one over both kinds of answer would take a trait for two, and be no plainer.
fn by_entry(file: &[u8], hit: Option<Hit>, form: u64) -> Why
    ensures { result ≡ by_entry file.now form hit }
{
    let Some(found) = hit else {
        return Why::NoEntry;
    };
    let Some(segment) = container_layout::segment_at(file, found.start, found.len, form) else {
        return Why::TooFewSegments(found.entry, stored_at(file, found.start, found.len), form);
    };
    Why::Answered(found.entry, form, segment.start, segment.len)
}

// What follows from the rule's value, and where it is a form from the entry with the key.
fn by_rule(file: &[u8], value: Result<u64, Fault>, hit: Option<Hit>) -> Why
    ensures { result ≡ by_rule file.now value hit }
{
    match value {
        Ok(form) => by_entry(file, hit, form),
        Err(Fault::ZeroDivisor(node)) => Why::ZeroDivisor(node),
        Err(Fault::NoTree) => Why::NoTree,
    }
}

// Why `lookup::nfind` of the same answers as it does.
#[tactic(auto, using(crate::proofs::Reasons::stale, crate::proofs::Reasons::by_rule_lem))]
pub fn explain(file: &[u8], t: Tables, rule: Rule<'_>, key: Key<'_>, n: u64) -> Why
    ensures { result ≡ why file.now t (traced_of (pool_in rule.entry.nodes) rule.entry.count rule.entry.root n)
        (last_with file.now t (bytes_of key.entry)) }
{
    if t.length != file.len() {
        return Why::StaleLength;
    }
    let value = rules_zero::trace(rule, n);
    let hit = lookup_scan::last_hit(file, t, key);
    by_rule(file, value, hit)
}

// The lookup's own reason. A function with a name and no `From`, since a host asks for it by that name.
pub fn reason_of(why: Why) -> Reason
    ensures { result ≡ reason_of why }
{
    match why {
        Why::StaleLength => Reason::StaleLength,
        Why::NoTree => Reason::NoTree,
        Why::ZeroDivisor(_) => Reason::ZeroModulus,
        Why::NoEntry => Reason::NoEntry,
        Why::TooFewSegments(entry, _, _) => Reason::TooFewSegments(entry),
        Why::Answered(entry, form, start, len) => Reason::Answered(entry, form, start, len),
    }
}
