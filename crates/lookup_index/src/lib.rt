// The index of a catalog in slots that the caller lends: built from its entries, and searched for a key. Not in the Rust, whose HashMap does
// both. A slot holds an entry's index plus 1, or 0.
#![tactic(auto)]

ghost use Rattle.std.specs.Prelude.{◌≡◌, ◌+◌, ◌%◌, ◌<◌, length};
ghost use Rattle.container_layout.specs.Mo.{entry};
ghost use Rattle.lookup_scan.specs.Keys.{bytes_of};
ghost use Rattle.lookup_slots.specs.Hash.{hash};
ghost use Rattle.lookup_slots.specs.Promise.{Hashes};
ghost use Rattle.lookup_slots.specs.Slots.{insert, built};
ghost use Rattle.lookup_index.specs.Index.{key_at, indexed, sought_in, building, leaves, number};
ghost use Rattle.lookup_index.specs.Private.{before_id, Power, Next, named, Stops, key_of_original, key_of_entry};

use container_layout::{Tables, wide};
use lookup_scan::{Hit, Key};
use refusal::Error;
use text::Stretch;

// Why a lookup in lent slots finds nothing out: too few are lent.
#[derive(Clone, Copy)]
pub struct TooFewSlots;

// Why building sets no slot: the file's length is not the record's; too few slots are lent.
#[derive(Clone, Copy)]
pub enum Unbuilt {
    StaleLength,
    TooFewSlots,
}

// Where the search for a key stops: the slot, or without one how many there are; and the entry that the slot names.
#[derive(Clone, Copy)]
struct Stop {
    place: usize,
    hit: Option<Hit>,
}

// The hash of what stands before the id in a key: context and byte 4, or nothing.
fn before_id(key: Key<'_>) -> usize
    ensures { Hashes 5381 (before_id key.entry) result }
{
    let Some(context) = key.context else {
        return 5381;
    };
    let h = lookup_slots::hash_from(5381, context);
    (h * 33 + 4) % 4294967296
}

// The hash of a key, which is not put together for it.
fn hash_of(key: Key<'_>) -> usize
    ensures { result ≡ hash (bytes_of key.entry) }
{
    let h = before_id(key);
    lookup_slots::hash_from(h, key.id)
}

// The first slot that a search for a hash looks at: the hash's low bits.
fn home(h: usize, m: usize) -> usize
    requires { Power m }
    ensures { (result ≡ h % m) × (result < m) }
{
    h & (m - 1)
}

fn next_of(p: usize, m: usize) -> usize
    requires { p < m }
    ensures { Next m p result }
{
    let q = p + 1;
    if q == m { 0 } else { q }
}

// The entry that a slot names, where it has the key, which is n bytes long. A number above the count names none.
fn named_by(file: &[u8], t: Tables, x: u32, n: usize, key: Key<'_>) -> Option<Hit>
    requires { n ≡ length (bytes_of key) }
    ensures { result ≡ named file.now t (bytes_of key.entry) x }
{
    if x == 0 {
        return None;
    }
    if t.count < x {
        return None;
    }
    let i = wide(x) - 1;
    lookup_scan::hit_at(file, t, i, n, key)
}

// The search for a key of n bytes with this hash, through at most all slots.
fn search(file: &[u8], t: Tables, slots: &[u32], h: usize, n: usize, key: Key<'_>) -> Stop
    requires h_value { h ≡ hash (bytes_of key) }
    requires n_value { n ≡ length (bytes_of key) }
    requires power { Power (length slots.now) }
    ensures { Stops file.now t slots.now (bytes_of key.entry) result }
{
    let m = slots.len();
    let mut p = home(h, m);
    for _passed in 0..m {
        let x = slots[p];
        if x == 0 {
            return Stop {
                place: p,
                hit: None,
            };
        }
        if let Some(hit) = named_by(file, t, x, n, key) {
            return Stop {
                place: p,
                hit: Some(hit),
            };
        }
        p = next_of(p, m);
    }
    Stop {
        place: m,
        hit: None,
    }
}

// The entry with the key, by the slots that an index uses.
fn hit_in(file: &[u8], t: Tables, slots: &[u32], key: Key<'_>) -> Option<Hit>
    requires { Power (length slots.now) }
    ensures { result ≡ indexed file.now t slots.now (bytes_of key.entry) }
{
    let n = lookup_scan::size_of(file.len(), key)?;
    let h = hash_of(key);
    let stop = search(file, t, slots, h, n, key);
    stop.hit
}

// The entry with the key, by slots that are lent, of which the first are used.
pub fn find(file: &[u8], t: Tables, slots: &[u32], key: Key<'_>) -> Result<Option<Hit>, TooFewSlots>
    ensures { result ≡ sought_in file.now t slots.now (bytes_of key.entry) }
{
    let size = lookup_slots::room_for(t.count, slots.len()).ok_or(TooFewSlots)?;
    Ok(hit_in(file, t, &slots[..size], key))
}

// Where the key of an entry lies, how long it is, and its hash.
#[derive(Clone, Copy)]
struct KeyPlace {
    start: usize,
    len: usize,
    hash: usize,
}

// The key of an original, by its marks.
fn key_by_marks(file: &[u8], original: Stretch) -> Option<KeyPlace>
    requires { original.start + original.len < length file.now }
    ensures { result ≡ key_of_original file.now original }
{
    let after = original.start + original.len + 1;
    let parts = container_layout::split(&file[original.start..after]);
    if original.len < parts.end {
        return None;
    }
    let end = original.start + parts.end;
    Some(KeyPlace {
        start: original.start,
        len: parts.end,
        hash: lookup_slots::hash_from(5381, &file[original.start..end]),
    })
}

// The same: an original without a byte below 5, which is told in the pass that hashes it, has no mark, and where a NUL comes after it, it is the key.
fn key_in(file: &[u8], original: Stretch) -> Option<KeyPlace>
    requires { original.start + original.len < length file.now }
    ensures { result ≡ key_of_original file.now original }
{
    let end = original.start + original.len;
    if file[end] == 0 {
        let hash = lookup_slots::hash_plain(5381, &file[original.start..end]);
        if hash.plain {
            return Some(KeyPlace {
                start: original.start,
                len: original.len,
                hash: hash.value,
            });
        }
    }
    key_by_marks(file, original)
}

// The key of entry i, by the load's tests of cells, strings and the id's ending.
fn key_at(file: &[u8], t: Tables, i: usize) -> Option<KeyPlace>
    ensures { result ≡ key_of_entry file.now (entry file.now t i) }
{
    let original = container_layout::string_at(file, t.big, t.originals, i)?;
    let _translation = container_layout::string_at(file, t.big, t.translations, i)?;
    key_in(file, original)
}

// Entry i goes into the slots: where the search for its key stops.
fn put(file: &[u8], t: Tables, i: usize, slots: &mut [u32])
    requires i_lt_count { i < t.count }
    requires power { Power (length slots.old) }
    ensures { slots.new ≡ insert (key_at file.now t) i (key_at file.now t i) slots.old }
{
    let Some(found) = key_at(file, t, i) else {
        return;
    };
    let end = found.start + found.len;
    let key = Key {
        context: None,
        id: &file[found.start..end],
    };
    let stop = search(file, t, &*slots, found.hash, found.len, key);
    if stop.place < slots.len() {
        slots[stop.place] = (i + 1) as u32;
    }
}

// The entries go, by index, into as many slots as there are.
fn fill(file: &[u8], t: Tables, slots: &mut [u32])
    requires { Power (length slots.old) }
    ensures { slots.new ≡ built (key_at file.now t) (length slots.old) t.count }
{
    slots.fill(0);
    for i in 0..wide(t.count) {
        put(file, t, i, &mut *slots);
    }
}

// The index of a catalog goes into the first of the slots lent.
pub fn build(file: &[u8], t: Tables, slots: &mut [u32]) -> Result<(), Unbuilt>
    ensures result { result ≡ building file.now t (length slots.old) }
    ensures left { slots.new ≡ leaves file.now t slots.old result }
{
    if file.len() != t.length {
        return Err(Unbuilt::StaleLength);
    }
    let size = lookup_slots::room_for(t.count, slots.len()).ok_or(Unbuilt::TooFewSlots)?;
    fill(file, t, &mut slots[..size]);
    Ok(())
}

// Its number.
pub fn number_of(building: Result<(), Unbuilt>) -> u32
    ensures { result ≡ number building }
{
    match building {
        Ok(()) => 0,
        Err(Unbuilt::StaleLength) => refusal::number_of(Error::BadRecord),
        Err(Unbuilt::TooFewSlots) => refusal::number_of(Error::IndexRoom),
    }
}
