// The layout of an MO file: its words, its cells and strings, and the key, the translation and the segments of an entry, as places in it.
// From parser.rs: the readers of a word, and what `parse_catalog` reads of an entry. Nothing is copied.
#![tactic(auto)]

ghost use Rattle.std.specs.Prelude.{◌≡◌, ◌+◌, ◌<◌, ◌≤◌, length};
ghost use Rattle.text.specs.Bytes.{front, place};
ghost use Rattle.text.specs.Cut.{cut};
ghost use Rattle.container_layout.specs.Mo.{word, within, string, entry, segment, piece_at};
ghost use Rattle.container_layout.specs.Promise.{Splits};
ghost use Rattle.container_layout.specs.Private.{plain};

use text::Stretch;

// The record of a catalog without its rule: the file's length and byte order, how many entries it has, and where the tables of originals and
// translations start.
#[derive(Clone, Copy)]
pub struct Tables {
    pub length: usize,
    pub big: bool,
    pub count: u32,
    pub originals: u32,
    pub translations: u32,
}

// Where an entry's key lies, and its translation: where each starts, and how long it is.
#[derive(Clone, Copy)]
pub struct Entry {
    pub key: usize,
    pub key_len: usize,
    pub start: usize,
    pub len: usize,
}

// A word as a number of the machine.
pub fn wide(x: u32) -> usize
    ensures { (result ≡ x) × (result < 4294967296) }
{
    x as usize
}

// The word at a place, in the file's byte order.
pub fn read_u32(file: &[u8], at: usize, big: bool) -> u32
    requires { at + 4 ≤ length file.now }
    ensures { result ≡ word big file.now at }
{
    let bytes = [file[at], file[at + 1], file[at + 2], file[at + 3]];
    if big {
        return u32::from_be_bytes(bytes);
    }
    u32::from_le_bytes(bytes)
}

// The string of a cell that lies in the file.
fn cell_at(file: &[u8], at: usize, big: bool) -> Option<Stretch>
    requires { at + 8 ≤ length file.now }
    ensures { result ≡ within file.now (word big file.now (at + 4)) (word big file.now at) }
{
    let len = wide(read_u32(file, at, big));
    let start = wide(read_u32(file, at + 4, big));
    // the byte after the string is counted in; two words of 32 bits and 1 do not overflow
    if file.len() < start + len + 1 {
        return None;
    }
    Some(Stretch { start, len })
}

// The string that the cell of an index names. The index may be any number, so nothing is added before it is tested.
pub fn string_at(file: &[u8], big: bool, table: u32, i: usize) -> Option<Stretch>
    ensures { result ≡ string big file.now table i }
{
    let start = wide(table);
    if file.len() < start {
        return None;
    }
    if (file.len() - start) / 8 <= i {
        return None;
    }
    cell_at(file, start + 8 * i, big)
}

// An original, with the byte after it: where its context ends (0 without one), where its id starts, and the NUL that ends the id, or
// without one the length. The 0 is no None: the definition `context_end` has it, and the bytes before it are the empty context.
#[derive(Clone, Copy)]
pub struct Parts {
    pub context: usize,
    pub id: usize,
    pub end: usize,
}

// The first NUL or byte 4, or the length. Bytes from 5 on are passed over in blocks; without the last byte, which is NUL in most originals, so that
// no block is broken off by it. The loop counts nothing: it goes on at the next byte below 5.
fn find_mark(o: &[u8]) -> usize
    ensures { result ≡ front plain o.now }
{
    if o.len() == 0 {
        return 0;
    }
    let last = o.len() - 1;
    let mut i = text::span(&o[..last], 0, 5, 0xFF);
    while i < o.len() {
        if o[i] == 0 {
            return i;
        }
        if o[i] == 4 {
            return i;
        }
        i = text::span(o, i + 1, 5, 0xFF);
    }
    i
}

// The context ends at the first byte 4; the id comes after it.
fn after_context(o: &[u8], four: usize) -> Parts
    requires { (four ≡ place 4 o.now) × (four < length o.now) }
    ensures { Splits o.now result }
{
    let id = four + 1;
    Parts {
        context: four,
        id,
        end: text::find_byte_from(o, id, 0),
    }
}

// Context and id of an original. Each byte is looked at once: after a NUL only for a byte 4, after a byte 4 only for a NUL.
pub fn split(o: &[u8]) -> Parts
    ensures { Splits o.now result }
{
    let mark = find_mark(o);
    if o.len() <= mark {
        return Parts {
            context: 0,
            id: 0,
            end: mark,
        };
    }
    if o[mark] == 4 {
        return after_context(o, mark);
    }
    let four = text::find_byte_from(o, mark + 1, 4);
    if o.len() <= four {
        return Parts {
            context: 0,
            id: 0,
            end: mark,
        };
    }
    after_context(o, four)
}

// Entry i by the load's tests of cells, strings and the id's ending, for any numbers and bytes.
pub fn entry_at(file: &[u8], t: Tables, i: usize) -> Option<Entry>
    ensures { result ≡ entry file.now t i }
{
    let original = string_at(file, t.big, t.originals, i)?;
    let end = original.start + original.len + 1;
    let parts = split(&file[original.start..end]);
    if original.len < parts.end {
        return None;
    }
    let translation = string_at(file, t.big, t.translations, i)?;
    Some(Entry {
        key: original.start,
        key_len: parts.end,
        start: translation.start,
        len: translation.len,
    })
}

// The place of a segment, of those of a translation that starts at a place of its file.
fn segment_in(translation: &[u8], start: usize, form: u64) -> Option<Stretch>
    requires { start + length translation.now < 18446744073709551616 }
    ensures { result ≡ piece_at start form (cut 0 translation.now) }
{
    let mut at = 0;
    let mut end = text::find_byte(translation, 0);
    for passed in 0..form {
        if translation.len() <= end {
            return None;
        }
        at = end + 1;
        end = text::find_byte_from(translation, at, 0);
    }
    Some(Stretch {
        start: start + at,
        len: end - at,
    })
}

// The place of a segment of the translation at a place, counted from 0, where there are that many.
pub fn segment_at(file: &[u8], start: usize, len: usize, form: u64) -> Option<Stretch>
    ensures { result ≡ segment file.now start len form }
{
    if file.len() < start {
        return None;
    }
    if file.len() - start < len {
        return None;
    }
    let end = start + len;
    segment_in(&file[start..end], start, form)
}
