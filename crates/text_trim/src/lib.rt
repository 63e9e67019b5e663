// Texts without the white space at their ends. Not in the Rust, which has it from std.
#![tactic(auto)]

ghost use Rattle.std.specs.Prelude.{◌≡◌, [], ◌∷◌, ◌+◌, ◌≤◌, length, get_or};
ghost use Rattle.text_trim.specs.Trim.{chars_of, white_space, lead, edge, trim, trim_end, Trims};
ghost use Rattle.text_trim.specs.Private.{three_if, ends_so, Last};

use text::Stretch;

// The characters that are trimmed: of header names, values and rules all of Unicode's White_Space, of names inside Plural-Forms six bytes,
// of a charset label five.
#[derive(Clone, Copy)]
pub enum Set {
    WhiteSpace,
    Six,
    Label,
}

// Of the bytes below 128, the sets differ in byte 11 alone.
#[tactic(auto, using(crate::proofs::Whites::eleven_cases))]
fn eleven(set: Set) -> usize
    ensures { result ≡ lead (chars_of set) (11 ∷ []) }
{
    match set {
        Set::WhiteSpace | Set::Six => 1,
        Set::Label => 0, // a label keeps it
    }
}

// How many bytes the character of the set has that a byte is by itself.
#[tactic(auto, using(crate::proofs::Whites::alone_cases))]
fn one_byte(set: Set, b: u8) -> usize
    ensures { result ≡ lead (chars_of set) (b ∷ []) }
{
    match b {
        11 => eleven(set),
        9..=13 | 32 => 1,
        _ => 0,
    }
}

// After byte C2: 85 and A0.
#[tactic(auto, using(crate::proofs::Whites::c2_cases))]
fn after_c2(b: u8) -> usize
    ensures { result ≡ lead white_space (0xC2 ∷ b ∷ []) }
{
    match b {
        0x85 | 0xA0 => 2,
        _ => 0,
    }
}

// After the bytes E2 80: 2000 to 200A, 2028, 2029, 202F.
#[tactic(auto, using(crate::proofs::Whites::e280_cases))]
fn after_e2_80(c: u8) -> usize
    ensures { result ≡ lead white_space (0xE2 ∷ 0x80 ∷ c ∷ []) }
{
    match c {
        0x80..=0x8A | 0xA8 | 0xA9 | 0xAF => 3,
        _ => 0,
    }
}

// Three bytes, if the last two are these.
#[tactic(auto, using(crate::proofs::Whites::three_cases))]
fn three(b: u8, c: u8, second: u8, third: u8) -> usize
    ensures { result ≡ three_if second third b c }
{
    if b == second && c == third { 3 } else { 0 }
}

// How many bytes the white character has that begins with a, where b and c are the next bytes. It is asked of an a that is not ASCII only:
// a byte below 128 is a character by itself.
#[tactic(auto, using(crate::proofs::Whites::more_cases))]
fn more_bytes(a: u8, b: u8, c: u8) -> usize
    requires { 128 ≤ a }
    ensures { result ≡ lead white_space (a ∷ b ∷ c ∷ []) }
{
    match a {
        0xC2 => after_c2(b),
        0xE1 => three(b, c, 0x9A, 0x80), // 1680
        0xE2 if b == 0x80 => after_e2_80(c),
        0xE2 => three(b, c, 0x81, 0x9F), // 205F
        0xE3 => three(b, c, 0x80, 0x80), // 3000
        _ => 0,
    }
}

// The byte at a place, or 0, which is in no white character.
fn byte_at(s: &[u8], i: usize) -> u8
    ensures { result ≡ get_or s.now i 0 }
{
    s.get(i).copied().unwrap_or(0)
}

// How many bytes the character of the set has that stands at the front: 0 where none does.
#[tactic(auto, using(crate::proofs::Whites::first_cases))]
fn first_char(s: &[u8], set: Set) -> usize
    ensures { result ≡ lead (chars_of set) s.now }
{
    let a = byte_at(s, 0);
    if a < 128 {
        return one_byte(set, a);
    }
    match set {
        Set::WhiteSpace => more_bytes(a, byte_at(s, 1), byte_at(s, 2)),
        Set::Six | Set::Label => 0,
    }
}

// Whether the last k bytes are a character of the set.
#[tactic(auto, using(crate::proofs::Trimming::too_few, crate::proofs::Trimming::ends_told))]
fn ends_so(s: &[u8], k: usize, set: Set) -> bool
    ensures { result ≡ ends_so (chars_of set) k s.now }
{
    k <= s.len() && first_char(&s[s.len() - k..], set) == k
}

// How many bytes the last character has, if it is of the set: 0 where none is.
fn last_char(s: &[u8], set: Set) -> usize
    ensures { Last (chars_of set) s.now result }
{
    let n = s.len();
    if n == 0 {
        return 0;
    }
    let b = s[n - 1];
    if b < 128 {
        return one_byte(set, b);
    }
    if ends_so(s, 2, set) {
        return 2;
    }
    if ends_so(s, 3, set) {
        return 3;
    }
    0
}

// How many bytes of the set's characters stand at the front.
fn white_front(s: &[u8], set: Set) -> usize
    ensures { result ≡ edge (chars_of set) s.now }
{
    let mut n = 0;
    // from character to character
    loop {
        let k = first_char(&s[n..], set);
        if k == 0 {
            return n;
        }
        n += k;
    }
}

// How long the text is without the set's characters at its end.
fn trimmed_end(s: &[u8], set: Set) -> usize
    ensures { result ≡ length (trim_end (chars_of set) s.now) }
{
    let mut e = s.len();
    // back from character to character
    loop {
        let k = last_char(&s[..e], set);
        if k == 0 {
            return e;
        }
        e -= k;
    }
}

// Where the text lies that is left of s without the characters of the set at both ends.
pub fn trimmed(s: &[u8], set: Set) -> Stretch
    ensures { Trims set s.now result }
{
    let start = white_front(s, set);
    let len = trimmed_end(&s[start..], set);
    Stretch { start, len }
}

// That text, as a part of the very slice that was lent.
pub fn trim<'a>(s: &'a [u8], set: Set) -> &'a [u8]
    ensures result_value { result.now ≡ trim (chars_of set) s.now }
    ensures ref_ptr_value { (result.ref_ptr.0 ≡ s.entry.ref_ptr.0) × (result.ref_ptr.1 ≡ s.entry.ref_ptr.1 + edge (chars_of set) s.now) }
{
    let Stretch { start, len } = trimmed(s, set);
    let end = start + len;
    &s[start..end]
}
