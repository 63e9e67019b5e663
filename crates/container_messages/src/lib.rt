// The entries of a catalog's file, each tested as it is read. From parser.rs: the loop's body in `parse_catalog`. A message is not kept,
// since it lies in the file.
#![tactic(auto)]

ghost use Rattle.std.specs.Prelude.{◌≡◌, ◌+◌, ◌-◌, ◌≤◌, length, take, drop};
ghost use Rattle.refusal.specs.Places.{at};
ghost use Rattle.refusal.specs.declared.Where.TheVariants.{Entry};
ghost use Rattle.text_utf8.specs.Utf8.{utf8};
ghost use Rattle.container_layout.specs.Mo.{string};
ghost use Rattle.container_messages.specs.Messages.{original_of, original_in, translation_in, read_at};

use container_layout::Tables;
use refusal::{Error, Refusal, Side, Where};
use text::Stretch;

// An original with an id, or with an empty one.
#[derive(Clone, Copy)]
enum Original {
    Named,
    Empty,
}

// An entry: a message, or the header by its translation's place.
#[derive(Clone, Copy)]
pub enum Read {
    Message,
    Header(Stretch),
}

// A test of entry i failed, on that side.
fn refused(i: usize, side: Side, e: Error) -> Refusal
    ensures { result ≡ at (Entry i side) e }
{
    refusal::at(Where::Entry(i, side), e)
}

// The original of an index with the byte after it: its context and its id.
fn parse_original(original: &[u8], i: usize) -> Result<Original, Error>
    ensures { result ≡ original_of i original.now }
{
    let parts = container_layout::split(original);
    let context = parts.context;
    let id = parts.id;
    let end = parts.end;
    if !text_utf8::is_utf8(&original[..context]) {
        return Err(Error::DecodingError);
    }
    if original.len() <= end {
        return Err(Error::Eof);
    }
    if !text_utf8::is_utf8(&original[id..end]) {
        return Err(Error::DecodingError);
    }
    if id < end {
        return Ok(Original::Named);
    }
    if i == 0 {
        return Ok(Original::Empty);
    }
    Err(Error::MisplacedMetadata)
}

fn original_at(file: &[u8], t: Tables, i: usize) -> Result<Original, Error>
    ensures { result ≡ original_in file.now i (string t.big file.now t.originals i) }
{
    let string = container_layout::string_at(file, t.big, t.originals, i).ok_or(Error::Eof)?;
    let end = string.start + string.len + 1;
    parse_original(&file[string.start..end], i)
}

// A part of the file is UTF-8. All segments of a translation are exactly if it is, since NUL is ASCII; the byte after it may be any.
fn is_text(file: &[u8], start: usize, end: usize) -> bool
    requires { (start ≤ end) × (end ≤ length file.now) }
    ensures { result ≡ utf8 (take (end - start) (drop start file.now)) }
{
    text_utf8::is_utf8(&file[start..end])
}

fn translation_at(file: &[u8], t: Tables, i: usize) -> Result<Stretch, Error>
    ensures { result ≡ translation_in file.now (string t.big file.now t.translations i) }
{
    let string = container_layout::string_at(file, t.big, t.translations, i).ok_or(Error::Eof)?;
    if !is_text(file, string.start, string.start + string.len) {
        return Err(Error::DecodingError);
    }
    Ok(string)
}

// Entry i: its original, then its translation. The header's is a translation too: what it says is not yet read.
pub fn parse_entry(file: &[u8], t: Tables, i: usize) -> Result<Read, Refusal>
    ensures { result ≡ read_at file.now t i }
{
    let original = original_at(file, t, i).map_err(|e| refused(i, Side::Original, e))?;
    let translation = translation_at(file, t, i).map_err(|e| refused(i, Side::Translation, e))?;
    match original {
        Original::Named => Ok(Read::Message),
        Original::Empty => Ok(Read::Header(translation)),
    }
}
