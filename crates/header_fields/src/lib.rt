// The fields of a header, and of its Plural-Forms: whether each line is one, and where the last value of a name lies.
// From metadata.rs: the pieces that `parse_metadata` and `plural_forms` go through, one by one.
#![tactic(auto)]

ghost use Rattle.std.specs.Prelude.{◌≡◌, ◌+◌, ◌^◌, ◌<◌};
ghost use Rattle.text_trim.specs.Trim.{chars_of, white_space};
ghost use Rattle.text.specs.Cut.{cut, every};
ghost use Rattle.header_fields.specs.Fields.{shift, named, last_of, line_ok, lines};
ghost use Rattle.header_fields.specs.Promise.{start_of};

use text::Stretch;
use text_trim::Set;

// The same part, counted from k bytes earlier. The caller proves that its start is still a machine number: the part lies in a text.
pub fn moved(k: usize, p: Option<Stretch>) -> Option<Stretch>
    requires { k + start_of p < 2 ^ 64 }
    ensures { result ≡ shift k p }
{
    let p = p?;
    Some(Stretch {
        start: k + p.start,
        ..p
    })
}

// The value of a field `name x value`, where it has that name. The name is trimmed of the set given, the value of all white space.
#[tactic(auto, using(crate::proofs::Places::named_cases))]
fn named_value(s: &[u8], x: u8, name: &[u8], names: Set) -> Option<Stretch>
    ensures { result ≡ named (chars_of names) white_space x name.now s.now }
{
    let i = text::find_byte(s, x);
    if s.len() <= i {
        return None;
    }
    if !text::equal(text_trim::trim(&s[..i], names), name) {
        return None;
    }
    let after = i + 1;
    let value = text_trim::trimmed(&s[after..], Set::WhiteSpace);
    Some(Stretch {
        start: after + value.start,
        ..value
    })
}

// The text is cut at each byte c: the value of the last piece that is a field of that name.
pub fn last_of(s: &[u8], c: u8, x: u8, name: &[u8], names: Set) -> Option<Stretch>
    ensures { result ≡ last_of (named (chars_of names) white_space x name.now) 0 (cut c s.now) }
{
    let mut found = None;
    let mut at = 0;
    // from piece to piece, as `text` finds where each ends, by blocks
    loop {
        let end = text::find_byte_from(s, at, c);
        found = moved(at, named_value(&s[at..end], x, name, names)).or(found);
        if s.len() <= end {
            return found;
        }
        at = end + 1;
    }
}

// A line is empty or has a colon.
fn line_ok(line: &[u8]) -> bool
    ensures { result ≡ line_ok line.now }
{
    line.is_empty() || text::find_byte(line, b':') < line.len()
}

// Whether every line is so.
#[tactic(auto, using(crate::proofs::Lines::passed_cases))]
pub fn lines_ok(h: &[u8]) -> bool
    ensures { result ≡ every line_ok (lines h.now) }
{
    let mut at = 0;
    // from line to line, as in `last_of`
    loop {
        let end = text::find_byte_from(h, at, b'\n');
        if !line_ok(&h[at..end]) {
            return false;
        }
        if h.len() <= end {
            return true;
        }
        at = end + 1;
    }
}
