// Replays answers that were written down: of the Rust crate, of document 01 where the crate has none, and of the Standard reading. The
// list on standard input is made by `oracle/sample`, and oracle/src/sample.rs says how it is laid out. Writes how many cases agree, and
// the place in the list of each that does not, counted from 0.
#![tactic(auto)]

ghost use Rattle.std.specs.Prelude.{◌<◌};

use container::{Options, Record};
use lookup::{Reason, Text};
use reading_rule::Reading;
use refusal::Where;
use rules::{Lent, NoForm, Rule};
use std::io;
use std::io::{Read, Write};

// How many cases, and how many of them agree.
#[derive(Clone, Copy, Default)]
struct Count {
    all: u64,
    agree: u64,
}

impl Count {
    fn and(self, agrees: bool) -> Count {
        Count {
            all: self.all.saturating_add(1),
            agree: self.agree.saturating_add(u64::from(agrees)),
        }
    }
}

// The cases so far, by origin.
#[derive(Clone, Copy, Default)]
struct Tally {
    total: u64,
    by_crate: Count,
    by_document: Count,
    standard: Count,
}

// The byte at a place, 0 past the end.
fn byte(s: &[u8], at: usize) -> u8 {
    s.get(at).copied().unwrap_or(0)
}

// The first two bytes as a number, the lowest first.
fn two(s: &[u8]) -> usize
    ensures { result < 65536 }
{
    usize::from(u16::from_le_bytes([byte(s, 0), byte(s, 1)]))
}

// The first eight.
fn eight(s: &[u8]) -> u64 {
    u64::from_le_bytes([
        byte(s, 0),
        byte(s, 1),
        byte(s, 2),
        byte(s, 3),
        byte(s, 4),
        byte(s, 5),
        byte(s, 6),
        byte(s, 7),
    ])
}

// At most so many bytes from the start.
fn first(s: &[u8], len: usize) -> &[u8] {
    &s[..len.min(s.len())]
}

// The bytes from a place on.
fn from(s: &[u8], at: usize) -> &[u8] {
    &s[at.min(s.len())..]
}

// Whose text answers: the file's, the id, the plural id.
fn whose(text: Text) -> u8 {
    match text {
        Text::Segment(..) => 0,
        Text::Id => 1,
        Text::PluralId => 2,
    }
}

fn reading_of(flags: u8) -> Reading {
    if flags & 2 == 0 {
        Reading::Shipped
    } else {
        Reading::Standard
    }
}

// The number, whose text it is, and the text.
fn agrees(told: &[u8], reason: Reason, answers: Text, got: &[u8], text: &[u8]) -> bool {
    lookup::number_of(reason) == u32::from(byte(told, 3))
        && whose(answers) == byte(told, 4)
        && got == text
}

// One call of the four.
fn call_agrees<'a>(
    told: &'a [u8],
    file: &'a [u8],
    catalog: Record,
    context: &'a [u8],
    id: &'a [u8],
    text: &'a [u8],
) -> bool {
    let n = eight(from(told, 5));
    match byte(told, 2) % 8 {
        0 => {
            let reason = gettext::answer_gettext(file, catalog, id);
            let got = gettext::gettext(file, catalog, id);
            agrees(told, reason, lookup::singular_text(reason), got, text)
        }
        1 => {
            let reason = gettext::answer_pgettext(file, catalog, context, id);
            let got = gettext::pgettext(file, catalog, context, id);
            agrees(told, reason, lookup::singular_text(reason), got, text)
        }
        2 => {
            let reason = gettext::answer_ngettext(file, catalog, id, n);
            let got = gettext::ngettext(file, catalog, id, b"plural", n);
            agrees(told, reason, lookup::plural_text(reason, n), got, text)
        }
        _ => {
            let reason = gettext::answer_npgettext(file, catalog, context, id, n);
            let got = gettext::npgettext(file, catalog, context, id, b"plural", n);
            agrees(told, reason, lookup::plural_text(reason, n), got, text)
        }
    }
}

fn lookup_agrees(told: &[u8], file: &[u8], catalog: Record) -> bool {
    let texts = from(told, 16);
    let of_context = usize::from(byte(told, 13));
    let of_id = usize::from(byte(told, 14));
    let context = first(texts, of_context);
    let after = from(texts, of_context);
    let id = first(after, of_id);
    let text = first(from(after, of_id), usize::from(byte(told, 15)));
    // the call is 8 more where no bytes are lent with the record
    if byte(told, 2) < 8 {
        return call_agrees(told, file, catalog, context, id, text);
    }
    call_agrees(told, first(file, 0), catalog, context, id, text)
}

// Each lookup of the list says how long it is, so the place jumps.
fn lookups_agree(list: &[u8], file: &[u8], catalog: Record) -> bool {
    let n = list.len();
    let mut at = 0;
    while at < n {
        let len = 2 + two(from(list, at));
        if n - at < len {
            return false;
        }
        if !lookup_agrees(first(from(list, at), len), file, catalog) {
            return false;
        }
        at += len;
    }
    true
}

fn catalog_agrees(told: &[u8]) -> bool {
    let flags = byte(told, 2);
    let texts = from(told, 8);
    let rule = first(texts, two(from(told, 4)));
    let after = from(texts, two(from(told, 4)));
    let file = first(after, two(from(told, 6)));
    let list = from(after, two(from(told, 6)));
    let options = Options {
        forced: flags & 1 != 0,
        reading: reading_of(flags),
        utf8: flags & 4 != 0,
        fit: false,
    };
    let loaded = container::load(file, rule, options);
    refusal::outcome_number(loaded.outcome) == u32::from(byte(told, 3))
        && lookups_agree(list, file, loaded.record)
}

// The counts at which a rule's forms are told.
const COUNTS: [u64; 16] = [
    0,
    1,
    2,
    3,
    4,
    5,
    7,
    10,
    11,
    12,
    21,
    22,
    100,
    111,
    4294967296,
    18446744073709551615,
];

// A form as it is told: 64 for any above 63, 255 for a remainder by zero.
fn told_form(resolved: Result<u64, NoForm>) -> u64 {
    match resolved {
        Ok(form) => form.min(64),
        Err(NoForm::ZeroModulus) => 255,
        Err(NoForm::NoTree) => 256,
    }
}

fn forms_agree(told: &[u8], rule: Rule<'_>) -> bool {
    COUNTS.iter().enumerate().all(|(i, &n)| {
        told_form(rules_value::resolve(rule, n)) == u64::from(byte(told, i))
    })
}

fn rule_agrees(told: &[u8]) -> bool {
    let number = byte(told, 3);
    let len = two(from(told, 4));
    let texts = from(told, 6);
    let mut codes = [0u8; 512];
    let mut places = [0u16; 1024];
    let mut values = [0u64; 512];
    let mut lent = Lent {
        codes: &mut codes,
        places: &mut places,
        values: &mut values,
    };
    let reading = reading_of(byte(told, 2));
    let parsed = reading_rule::parse(first(texts, len), Where::Forced, reading, &mut lent);
    match parsed {
        Ok(count) => {
            let rule = Rule {
                nodes: lent.nodes(),
                count,
                root: count.saturating_sub(1),
            };
            number == 0 && forms_agree(from(texts, len), rule)
        }
        Err(refusal) => refusal::number_of(refusal.error) == u32::from(number),
    }
}

fn case_agrees(told: &[u8]) -> bool {
    match byte(told, 0) {
        1 => catalog_agrees(told),
        2 => rule_agrees(told),
        _ => false,
    }
}

// The origins are the letters c, d and s.
fn counted(t: Tally, origin: u8, yes: bool) -> Tally {
    let total = t.total.saturating_add(1);
    match origin {
        b'c' => Tally {
            total,
            by_crate: t.by_crate.and(yes),
            ..t
        },
        b'd' => Tally {
            total,
            by_document: t.by_document.and(yes),
            ..t
        },
        _ => Tally {
            total,
            standard: t.standard.and(yes),
            ..t
        },
    }
}

fn replay_case<W: Write>(out: &mut W, t: Tally, told: &[u8]) -> io::Result<Tally> {
    let yes = case_agrees(told);
    if !yes {
        writeln!(out, "differs: case {}", t.total)?;
    }
    Ok(counted(t, byte(told, 1), yes))
}

// The cases of one part of the list; a length of 0 ends it. Each case says how long it is, so the place jumps.
fn replay<W: Write>(out: &mut W, t: Tally, part: &[u8]) -> io::Result<Tally> {
    let n = part.len();
    let mut tally = t;
    let mut at = 0;
    while at < n {
        let len = two(from(part, at));
        if len == 0 {
            return Ok(tally);
        }
        if n - at < 2 + len {
            return Ok(tally);
        }
        tally = replay_case(out, tally, first(from(part, at + 2), len))?;
        at += 2 + len;
    }
    Ok(tally)
}

// Reads the next part, where there is one.
fn replay_some<R: Read, W: Write>(list: &mut R, out: &mut W, t: Tally) -> io::Result<Tally> {
    let mut buffer = [0u8; 65536];
    let n = stream::read_full(list, &mut buffer)?;
    replay(out, t, &buffer[..n])
}

fn show<W: Write>(out: &mut W, name: &str, count: Count) -> io::Result<()> {
    writeln!(out, "{name}: agree {} of {}", count.agree, count.all)
}

// The list has at most eight parts.
fn replay_all<R: Read, W: Write>(list: &mut R, out: &mut W) -> io::Result<Tally> {
    let mut tally = Tally::default();
    for _ in 0..8 {
        tally = replay_some(list, out, tally)?;
    }
    Ok(tally)
}

fn main(rt: HostRuntime) -> io::Result<()> {
    let out = &mut io::writer(&rt);
    let t = replay_all(&mut rt.reader(), out)?;
    show(out, "the crate", t.by_crate)?;
    show(out, "document 01", t.by_document)?;
    show(out, "Standard", t.standard)
}
