// The search for a key: the last entry that has it. From lib.rs: `key_with_context`, and `strings.get` of the lookups; a key is compared
// where it lies, and nothing is built or copied.
#![tactic(auto)]

ghost use Rattle.std.specs.Prelude.{◌≡◌, true, ◌+◌, ◌<◌, ◌≤◌, length};
ghost use Rattle.lookup_scan.specs.Keys.{key_of, bytes_of, last_with};
ghost use Rattle.lookup_scan.specs.Promise.{Sized, hit_if};
ghost use Rattle.lookup_scan.specs.Private.{InContext, ends_after, MayBe, LastMaybe, ScanFrom, Ending, has_from, has_key, Starts};

use container_layout::{Tables, wide};
use text::Stretch;

// The key of a lookup: an id, and its context where it has one.
#[derive(Clone, Copy)]
pub struct Key<'a> {
    pub context: Option<&'a [u8]>,
    pub id: &'a [u8],
}

// The entry with a key, and where its translation lies.
#[derive(Clone, Copy)]
pub struct Hit {
    pub entry: usize,
    pub start: usize,
    pub len: usize,
}

// The length of a key, unless it is as long as the file.
pub fn size_of(size: usize, key: Key<'_>) -> Option<usize>
    ensures { Sized size (bytes_of key.entry) result }
{
    if size <= key.id.len() {
        return None;
    }
    let Some(context) = key.context else {
        return Some(key.id.len());
    };
    let left = size - key.id.len() - 1;
    if left <= context.len() {
        return None;
    }
    Some(context.len() + 1 + key.id.len())
}

// Whether a key begins with a context and byte 4.
#[tactic(auto, using(crate::proofs::Keys::too_short, crate::proofs::Keys::not_four, crate::proofs::Keys::by_context))]
fn in_context(key: &[u8], context: &[u8]) -> bool
    ensures { InContext context.now key.now result }
{
    let n = context.len();
    if key.len() <= n {
        return false;
    }
    if key[n] != 4 {
        return false;
    }
    text::equal(&key[..n], context)
}

// Whether a string has n bytes or more, and a NUL after n of them. What it lacks to n bytes and the byte there are looked at together: the length alone is less
// or more for every second entry, so that a test of it would be mispredicted as often.
#[tactic(auto, using(crate::proofs::Entries::ends_at_once))]
fn ends_after(file: &[u8], string: Stretch, n: usize) -> bool
    requires { string.start + string.len < length file.now }
    ensures { result ≡ ends_after file.now string.start string.len n }
{
    let most = n.min(string.len);
    let end = string.start + most;
    ((n - most) | usize::from(file[end])) == 0
}

// Whether entry i may have a key of n bytes: its original is long enough, and a NUL stands after so many. Most entries end here.
#[tactic(auto, using(crate::proofs::Entries::may_not_outside, crate::proofs::Entries::may_by_end, container_layout::proofs::Cells::string_told))]
fn may_be(file: &[u8], t: Tables, i: usize, n: usize) -> bool
    ensures { MayBe file.now t i n result }
{
    let Some(original) = container_layout::string_at(file, t.big, t.originals, i) else {
        return false;
    };
    ends_after(file, original, n)
}

// Whether an original has the key of n bytes whose id stands from a place on, whatever bytes the two have.
#[tactic(auto, using(crate::proofs::Ends::other_bytes, crate::proofs::Ends::by_end))]
fn has_any_key(o: &[u8], n: usize, from: usize, id: &[u8]) -> bool
    requires { (from ≤ n) × (n ≤ length o.now) }
    ensures { result ≡ has_from o.now n from id.now }
{
    if !text::equal(&o[from..n], id) {
        return false;
    }
    let parts = container_layout::split(o);
    parts.end == n
}

// Whether an original has the key of n bytes, which has a context. Where neither context nor id has a byte below 5, the byte 4 between them is the
// only mark, and the id ends at the NUL after it.
#[tactic(auto, using(crate::proofs::Ends::no_context, crate::proofs::Ends::any_context, crate::proofs::Ends::plain_context))]
fn has_in_context(o: &[u8], n: usize, context: &[u8], id: &[u8]) -> bool
    requires { Ending o.now n (key_of true context.now id.now) }
    ensures { result ≡ has_key o.now n (key_of true context.now id.now) }
{
    if !in_context(&o[..n], context) {
        return false;
    }
    let from = context.len() + 1;
    if text::same_from(&o[from..n], id, 5) {
        if text::all_within(context, 5, 0xFF) {
            return true;
        }
    }
    has_any_key(o, n, from, id)
}

// Whether an original has the key of n bytes, where a NUL stands after so many. An id without a byte below 5, which is told in the pass that compares
// it, has no mark, so that only a byte 4 further on could tell that its own end is not here.
#[tactic(auto, using(crate::proofs::Keys::without_context, crate::proofs::Ends::other_first, crate::proofs::Ends::any_alone, crate::proofs::Ends::plain_alone))]
fn has_key(o: &[u8], n: usize, key: Key<'_>) -> bool
    requires { Ending o.now n (bytes_of key) }
    ensures { result ≡ has_key o.now n (bytes_of key.entry) }
{
    if let Some(context) = key.context {
        return has_in_context(o, n, context, key.id);
    }
    // most others of that length differ here, and a scan meets many
    if 0 < n {
        if o[0] != key.id[0] {
            return false;
        }
    }
    if text::same_from(&o[..n], key.id, 5) {
        return text::find_byte_from(o, n + 1, 4) == o.len();
    }
    has_any_key(o, n, 0, key.id)
}

// Entry i, where it has the key of n bytes: its original is at a place, and after n bytes has a NUL.
#[tactic(auto, using(container_layout::proofs::Cells::string_told, crate::proofs::Found::found_none, crate::proofs::Found::found_untranslated))]
fn found_at(
    file: &[u8],
    t: Tables,
    i: usize,
    original: Stretch,
    n: usize,
    key: Key<'_>,
) -> Option<Hit>
    requires { (n ≡ length (bytes_of key)) × Starts file.now t i original n }
    ensures { result ≡ hit_if file.now t (bytes_of key.entry) i }
{
    let after = original.start + original.len + 1;
    if !has_key(&file[original.start..after], n, key) {
        return None;
    }
    let translation = container_layout::string_at(file, t.big, t.translations, i)?;
    Some(Hit {
        entry: i,
        start: translation.start,
        len: translation.len,
    })
}

// Entry i, where it has the key, which is n bytes long: what other searches ask of an entry. Most end at their length, or at the byte after n.
#[tactic(auto, using(container_layout::proofs::Cells::string_told, crate::proofs::Found::hit_outside, crate::proofs::Found::hit_short))]
pub fn hit_at(file: &[u8], t: Tables, i: usize, n: usize, key: Key<'_>) -> Option<Hit>
    requires { n ≡ length (bytes_of key) }
    ensures { result ≡ hit_if file.now t (bytes_of key.entry) i }
{
    let original = container_layout::string_at(file, t.big, t.originals, i)?;
    if !ends_after(file, original, n) {
        return None;
    }
    found_at(file, t, i, original, n, key)
}

// Where the scan starts: no index from there on has its cell in the file.
fn scan_from(file: &[u8], t: Tables) -> usize
    ensures { ScanFrom file.now t result }
{
    let start = wide(t.originals);
    if file.len() < start {
        return 0;
    }
    let most = (file.len() - start) / 8;
    most.min(wide(t.count))
}

// The last entry below a place that may have a key of n bytes: the entries are passed from the last one down, by the quick test alone. It is a function of its
// own and stays one, so that the loop holds no call: short, it is as fast wherever a host's linker puts it.
#[inline(never)]
#[tactic(auto, using(crate::proofs::Scan::down_quick, crate::proofs::Scan::down_end, crate::proofs::Scan::down_found))]
fn last_maybe(file: &[u8], t: Tables, below: usize, n: usize) -> Option<usize>
    ensures { LastMaybe file.now t below n result }
{
    for i in (0..below).rev() {
        if may_be(file, t, i, n) {
            return Some(i);
        }
    }
    None
}

// The last entry with the key.
#[tactic(auto, using(crate::proofs::Keys::sized_long, crate::proofs::Scan::too_long))]
pub fn last_hit(file: &[u8], t: Tables, key: Key<'_>) -> Option<Hit>
    ensures { result ≡ last_with file.now t (bytes_of key.entry) }
{
    let n = size_of(file.len(), key)?;
    let mut below = scan_from(file, t);
    // on below each entry that might have had the key
    while let Some(i) = last_maybe(file, t, below, n) {
        if let Some(hit) = hit_at(file, t, i, n, key) {
            return Some(hit);
        }
        below = i;
    }
    None
}
