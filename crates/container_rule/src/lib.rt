// Which rule a load goes on with: the forced one, the header's, or the default; and the header's count of forms. The header is entry 0's, where
// its id is empty. From parser.rs: the part of `parse_catalog` for an empty id, and where it sets the resolver. The nodes of the rule go into
// arrays that the caller lends.
#![tactic(auto)]

ghost use Rattle.std.specs.Prelude.{◌≡◌, ◌||◌, ◌+◌, ◌≤◌, length};
ghost use Rattle.rules.specs.Lent.{Keeps, pool_left};
ghost use Rattle.refusal.specs.Places.{at, in_header};
ghost use Rattle.header_fields.specs.Promise.{end_of};
ghost use Rattle.reading_rule.specs.Plurals.{Parses};
ghost use Rattle.container_rule.specs.Rule.{label_ok, rule_at, header_at, first_rule, forced_rule};
ghost use Rattle.container_rule.specs.Promise.{end_of_rule, forms_of, Chooses};

use container_layout::Tables;
use container_messages::Read;
use reading_rule::Reading;
use refusal::{Error, Refusal, Side, Where};
use rules::Lent;
use text::Stretch;

// Where the header's rule lies that is to be read, if any, and its count of forms.
#[derive(Clone, Copy)]
pub struct First {
    pub rule: Option<Stretch>,
    pub forms: Option<u64>,
}

// The header is entry 0's.
fn refused(e: Error) -> Refusal
    ensures { result ≡ at in_header e }
{
    refusal::at(Where::Entry(0, Side::Header), e)
}

// UTF-8 is forced, or the label is one of UTF-8's, or there is none.
fn is_known(h: &[u8], label: Option<Stretch>, utf8: bool) -> bool
    requires { end_of label ≤ length h.now }
    ensures { result ≡ (utf8 || label_ok h.now label) }
{
    if utf8 {
        return true;
    }
    let Some(p) = label else {
        return true;
    };
    let end = p.start + p.len;
    header::is_utf8_label(&h[p.start..end])
}

// The header: where in it the rule lies that is to be read, and its count. A forced rule stands instead of its rule, not of its count.
fn parse_header(h: &[u8], forced: bool, utf8: bool) -> Result<First, Refusal>
    ensures { result ≡ rule_at forced utf8 h.now }
{
    let fields = header::parse_metadata(h).ok_or(refused(Error::MalformedMetadata))?;
    if !is_known(h, fields.charset, utf8) {
        return Err(refused(Error::UnknownEncoding));
    }
    let rule = if forced { None } else { fields.rule }; // the forced one stands instead
    Ok(First {
        rule,
        forms: fields.forms,
    })
}

// Segment 0 of the translation at a place is the header. The rule's place is counted from the start of the file.
fn header_at(file: &[u8], p: Stretch, forced: bool, utf8: bool) -> Result<First, Refusal>
    requires { p.start + p.len ≤ length file.now }
    ensures { result ≡ header_at forced utf8 file.now p.start p.len }
{
    let end = p.start + p.len;
    let stop = p.start + text::find_byte(&file[p.start..end], 0);
    let first = parse_header(&file[p.start..stop], forced, utf8)?;
    Ok(First {
        rule: header_fields::moved(p.start, first.rule),
        ..first
    })
}

// Entry 0, which alone can be the header.
pub fn parse_first(file: &[u8], t: Tables, forced: bool, utf8: bool) -> Result<First, Refusal>
    ensures { result ≡ first_rule forced utf8 file.now t }
{
    let headless = First {
        rule: None,
        forms: None,
    };
    if t.count == 0 {
        return Ok(headless);
    }
    match container_messages::parse_entry(file, t, 0)? {
        Read::Message => Ok(headless),
        Read::Header(p) => header_at(file, p, forced, utf8),
    }
}

// The forced rule, where one is given, else the default; how many nodes it has. Where it is refused, the arrays hold the default.
pub fn parse_forced(
    text: &[u8],
    given: bool,
    reading: Reading,
    lent: &mut Lent<'_>,
) -> Result<usize, Refusal>
    ensures lent { Keeps lent.old lent.new }
    ensures parsed { Parses (forced_rule given reading text.now) (pool_left lent.new) result }
{
    if given {
        return reading_rule::parse(text, Where::Forced, reading, lent);
    }
    Ok(lent.put_default())
}

// The count of forms beside it; a refusal has none.
pub fn forms_of(first: Result<First, Refusal>) -> Option<u64>
    ensures { result ≡ forms_of first }
{
    match first {
        Ok(first) => first.forms,
        Err(_) => None,
    }
}

// The rule at the header's place, where there is one, else the one before, of so many nodes. Beside a refusal it is the default.
pub fn rule_of(
    file: &[u8],
    first: Result<First, Refusal>,
    before: usize,
    reading: Reading,
    lent: &mut Lent<'_>,
) -> Result<usize, Refusal>
    requires { end_of_rule first ≤ length file.now }
    ensures lent { Keeps lent.old lent.new }
    ensures chosen { Chooses reading file.now first before (pool_left lent.old) (pool_left lent.new) result }
{
    let rule = match first {
        Ok(first) => first.rule,
        Err(refusal) => return reading_rule::refuse(refusal, lent),
    };
    let Some(p) = rule else {
        return Ok(before);
    };
    let rule_end = p.start + p.len;
    let text = &file[p.start..rule_end];
    reading_rule::parse(text, Where::Entry(0, Side::Rule), reading, lent)
}
