// Texts of bytes: the small questions that the layers above share. How far bytes within bounds go on, where a byte stands first; whether
// texts are the same, as written or in small letters, and where one stands in another. Not in the Rust, which has them from std.
#![tactic(auto)]

ghost use Rattle.std.specs.Prelude.{◌≡◌, ◌&&◌, map, ◌+◌, ◌≤◌, length, drop, leb};
ghost use Rattle.text.specs.Bytes.{within, all, front, place, same, begins, first, read};
ghost use Rattle.text.specs.Private.{in_run, Flags, Blocks, differ_of, differences, alike, common_of, Least};

// A part of a text: where it starts, and how long it is.
#[derive(Clone, Copy)]
pub struct Stretch {
    pub start: usize,
    pub len: usize,
}

// 1 for a byte that is not within the bounds. A number and no `bool`, as is what `ends` and `differ` give: `block` gathers them at once.
fn outside(b: u8, lo: u8, hi: u8) -> u8
    ensures { Flags (within (lo, hi)) b result }
{
    u8::from(b < lo || hi < b)
}

// What a run is made of: bytes within the bounds, or bytes that are not. A closure is no plainer: each promise here names the choice.
#[derive(Clone, Copy)]
enum Run {
    Within,
    Without,
}

// 1 for a byte that ends the run.
fn ends(b: u8, lo: u8, hi: u8, run: Run) -> u8
    ensures { Flags (in_run run (lo, hi)) b result }
{
    match run {
        Run::Within => outside(b, lo, hi),
        Run::Without => 1 - outside(b, lo, hi),
    }
}

// Whether a block of 16 bytes goes on with the run. The flags are gathered by a loop of fixed length and not tested one by one, so that
// the machine takes the block at once.
#[tactic(auto, using(crate::proofs::Flags::gathered_cases))]
fn block(s: &[u8], i: usize, lo: u8, hi: u8, run: Run) -> bool
    requires { i + 16 ≤ length s.now }
    ensures { result ≡ leb 16 (front (in_run run (lo, hi)) (drop i s.now)) }
{
    let mut z = 0;
    for k in 0..16 {
        z |= ends(s[i + k], lo, hi, run);
    }
    z == 0
}

// Past as many blocks of the run as there are.
fn blocks(s: &[u8], from: usize, lo: u8, hi: u8, run: Run) -> usize
    requires { from ≤ length s.now }
    ensures { Blocks (in_run run (lo, hi)) s.now from result }
{
    let mut i = from;
    // block by block
    while 16 <= s.len() - i && block(s, i, lo, hi, run) {
        i += 16;
    }
    i
}

// Where the run ends that begins at a place.
fn run_end(s: &[u8], from: usize, lo: u8, hi: u8, run: Run) -> usize
    requires { from ≤ length s.now }
    ensures { result ≡ from + front (in_run run (lo, hi)) (drop from s.now) }
{
    let n = s.len();
    let past = blocks(s, from, lo, hi, run);
    // the last block again takes in bytes that were seen, and spares the loop below where the run goes on to the end
    if n - past < 16 && 16 <= n - from && block(s, n - 16, lo, hi, run) {
        return n;
    }
    for i in past..n {
        if ends(s[i], lo, hi, run) != 0 {
            return i;
        }
    }
    n
}

// The first place from a place on of a byte that is not within the bounds, or the text's length; past the end that place itself.
#[tactic(auto, using(crate::proofs::Front::counted_end))]
pub fn span(s: &[u8], from: usize, lo: u8, hi: u8) -> usize
    ensures { result ≡ from + front (within (lo, hi)) (drop from s.now) }
{
    if s.len() < from {
        return from;
    }
    run_end(s, from, lo, hi, Run::Within)
}

// Whether all bytes are within the bounds. Where they are not, nothing looks for the place.
#[tactic(auto, using(crate::proofs::All::all_cases))]
pub fn all_within(s: &[u8], lo: u8, hi: u8) -> bool
    ensures { result ≡ all (within (lo, hi)) s.now }
{
    let n = s.len();
    if n < 16 {
        return run_end(s, 0, lo, hi, Run::Within) == n;
    }
    n - blocks(s, 0, lo, hi, Run::Within) < 16 && block(s, n - 16, lo, hi, Run::Within)
}

// The first place of a byte from a place on, or the text's length; past the end that place itself.
#[tactic(auto, using(crate::proofs::Front::counted_end))]
pub fn find_byte_from(s: &[u8], at: usize, x: u8) -> usize
    ensures { result ≡ at + place x (drop at s.now) }
{
    if s.len() < at {
        return at;
    }
    run_end(s, at, x, x, Run::Without)
}

// The first place of a byte, or the text's length.
pub fn find_byte(s: &[u8], x: u8) -> usize
    ensures { result ≡ place x s.now }
{
    find_byte_from(s, 0, x)
}

// How the letters of a text are read. The definitions, which may not change, speak of this very choice.
#[derive(Clone, Copy)]
pub enum Case {
    AsWritten,
    Small,
}

// A byte as it is read: as it is, or with A to Z made a to z.
fn letter(case: Case, b: u8) -> u8
    ensures { result ≡ read case b }
{
    match case {
        Case::AsWritten => b,
        Case::Small => b.to_ascii_lowercase(),
    }
}

// Whether the text, its letters read so, begins with the pattern.
#[tactic(auto, using(crate::proofs::Same::agree_cases))]
fn begins_so(s: &[u8], pattern: &[u8], case: Case) -> bool
    ensures { result ≡ begins pattern.now (map (read case) s.now) }
{
    if s.len() < pattern.len() {
        return false;
    }
    for i in 0..pattern.len() {
        if letter(case, s[i]) != pattern[i] {
            return false;
        }
    }
    true
}

// Whether the text begins with the pattern.
pub fn starts_with(s: &[u8], pattern: &[u8]) -> bool
    ensures { result ≡ begins pattern.now s.now }
{
    begins_so(s, pattern, Case::AsWritten)
}

// Whether the text, its letters read so, is the other text.
#[tactic(auto, using(crate::proofs::Same::same_cases))]
fn equal_so(s: &[u8], other: &[u8], case: Case) -> bool
    ensures { result ≡ same other.now (map (read case) s.now) }
{
    s.len() == other.len() && begins_so(s, other, case)
}

// 1 for two bytes that differ.
fn differ(a: u8, b: u8) -> u8
    ensures { result ≡ differ_of a b }
{
    u8::from(a != b)
}

// Whether two texts have the same 16 bytes at a place. The flags are gathered as in `block`.
#[tactic(auto, using(crate::proofs::Alike::alike_cases))]
fn same_block(s: &[u8], other: &[u8], i: usize) -> bool
    requires { (i + 16 ≤ length s.now) × (length s.now ≡ length other.now) }
    ensures { result ≡ leb 16 (front alike (drop i (differences other.now s.now))) }
{
    let mut z = 0;
    for k in 0..16 {
        z |= differ(other[i + k], s[i + k]);
    }
    z == 0
}

// Past as many blocks that are the same as there are.
fn same_blocks(s: &[u8], other: &[u8]) -> usize
    requires { length s.now ≡ length other.now }
    ensures { Blocks alike (differences other.now s.now) 0 result }
{
    let mut at = 0;
    // block by block
    while 16 <= s.len() - at && same_block(s, other, at) {
        at += 16;
    }
    at
}

// Whether two texts are the same: by blocks, the last of which ends with them, or byte by byte where they are short.
#[tactic(auto, using(crate::proofs::Alike::equal_cases))]
pub fn equal(s: &[u8], other: &[u8]) -> bool
    ensures { result ≡ same other.now s.now }
{
    let n = s.len();
    if n < 16 {
        return equal_so(s, other, Case::AsWritten);
    }
    if n != other.len() {
        return false;
    }
    n - same_blocks(s, other) < 16 && same_block(s, other, n - 16)
}

// The byte that two texts have in common at a place, or 0 where they differ.
fn common(a: u8, b: u8) -> u8
    ensures { result ≡ common_of a b }
{
    if a == b { a } else { 0 }
}

// The least of a byte and of those that two texts have in common at 16 places. It is gathered as the flags in `block`.
fn least(s: &[u8], other: &[u8], i: usize, most: u8) -> u8
    requires { (i + 16 ≤ length s.now) × (length s.now ≡ length other.now) }
    ensures { Least s.now other.now i (i + 16) most result }
{
    let mut z = most;
    for k in 0..16 {
        z = z.min(common(s[i + k], other[i + k]));
    }
    z
}

// The same at 32 places and at 32 more, with none left out between them.
fn least_four(s: &[u8], other: &[u8], i: usize, j: usize, most: u8) -> u8
    requires { (i ≤ j) × (j ≤ i + 32) × (j + 32 ≤ length s.now) × (length s.now ≡ length other.now) }
    ensures { Least s.now other.now i (j + 32) most result }
{
    let one = least(s, other, i, most);
    let two = least(s, other, i + 16, one);
    let three = least(s, other, j, two);
    least(s, other, j + 16, three)
}

// The least byte that two texts have in common, byte by byte.
fn least_short(s: &[u8], other: &[u8]) -> u8
    requires { length s.now ≡ length other.now }
    ensures { Least s.now other.now 0 (length s.now) 255 result }
{
    let mut z = u8::MAX;
    for k in 0..s.len() {
        z = z.min(common(s[k], other[k]));
    }
    z
}

// The same by blocks, the last of which ends with the texts. No block is tested by itself: the length alone decides which way this goes.
fn least_of(s: &[u8], other: &[u8]) -> u8
    requires { length s.now ≡ length other.now }
    ensures { Least s.now other.now 0 (length s.now) 255 result }
{
    let n = s.len();
    if n < 16 {
        return least_short(s, other);
    }
    if n <= 32 {
        return least(s, other, n - 16, least(s, other, 0, u8::MAX));
    }
    if n <= 64 {
        return least_four(s, other, 0, n - 32, u8::MAX);
    }
    let mut z = u8::MAX;
    let mut i = 0;
    // four blocks at a time
    while 64 < n - i {
        z = least_four(s, other, i, i + 32, z);
        i += 64;
    }
    least_four(s, other, n - 64, n - 32, z)
}

// Whether two texts are the same and have no byte below a bound, in one pass: the least byte that they have in common tells both.
#[tactic(auto, using(crate::proofs::Lowest::same_from_cases))]
pub fn same_from(s: &[u8], other: &[u8], lo: u8) -> bool
    ensures { result ≡ (same other.now s.now && all (within (lo, 255)) other.now) }
{
    if lo == 0 {
        return equal(s, other);
    }
    s.len() == other.len() && lo <= least_of(s, other)
}

// Whether a text in small letters is the other text.
pub fn equal_small(s: &[u8], other: &[u8]) -> bool
    ensures { result ≡ same other.now (map (read Case.Small) s.now) }
{
    equal_so(s, other, Case::Small)
}

// Where a pattern stands first.
#[tactic(auto, using(crate::proofs::Sought::sought_cases))]
pub fn find(s: &[u8], pattern: &[u8]) -> Option<usize>
    ensures { result ≡ first pattern.now s.now }
{
    for i in 0..s.len() {
        if starts_with(&s[i..], pattern) {
            return Some(i);
        }
    }
    // only a pattern of no bytes stands at the end
    if pattern.is_empty() {
        return Some(s.len());
    }
    None
}
