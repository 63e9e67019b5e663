// The UTF-8 test. Not in the Rust, which has it from std; from RFC 3629. Two quick tests, by blocks, pass most texts; any other is read
// byte by byte, by a table of byte classes.
#![tactic(auto)]

ghost use Rattle.std.specs.Prelude.{◌≡◌, true, ◌+◌, ◌<◌, ◌≤◌, length};
ghost use Rattle.std.proofs.Math.Option.{some};
ghost use Rattle.text.specs.Bytes.{within};
ghost use Rattle.text_utf8.specs.Utf8.{table, after, utf8};
ghost use Rattle.text_utf8.specs.Private.{Tables, follows, come, Goes, Plain};

// The class of each byte, as the last four bits of a sign: how many of the bounds of RFC 3629's table are not above it.
const CLASSES: [u8; 256] = *b"\
    0000000000000000000000000000000000000000000000000000000000000000\
    0000000000000000000000000000000000000000000000000000000000000000\
    1111111111111111222222222222222233333333333333333333333333333333\
    445555555555555555555555555555556777777777777899:;;;<===========";

// What each state turns into by a byte of each class, as the last four bits of a sign; a line for each state. 0 is between characters, and
// 1 is wrong; the others have bytes to come: 2 a tail; 3 A0 to BF and a tail; 4 80 to 9F and a tail; 5 two tails; 6 90 to BF and two
// tails; 7 three tails; 8 80 to 8F and two tails.
const STEPS: [u8; 144] = *b"\
    0111123545678111\
    1111111111111111\
    1000111111111111\
    1112111111111111\
    1221111111111111\
    1222111111111111\
    1155111111111111\
    1555111111111111\
    1511111111111111";

// Whether the text is right, by the tables.
fn by_table(classes: &[u8; 256], steps: &[u8; 144], s: &[u8]) -> bool
    requires { Tables classes.now steps.now }
    ensures { result ≡ utf8 s.now }
{
    let mut state = 0;
    for &b in s {
        let class = usize::from(classes[usize::from(b)] % 16);
        state = usize::from(steps[state * 16 + class] % 16);
    }
    state == 0
}

// The least and the greatest byte that may follow c in its character.
fn follows(c: u8) -> (u8, u8)
    ensures { result ≡ follows c }
{
    match c {
        0xE0 => (0xA0, 0xBF),
        0xED => (0x80, 0x9F),
        _ => (0x80, 0xBF),
    }
}

// 1 for a byte that cannot follow c in its character. A number and no `bool`, as is what the next two give: `block` gathers them at once.
fn not_next(c: u8, d: u8) -> u8
    ensures { result ≡ 0 → within (follows c) d ≡ true }
{
    let (least, greatest) = follows(c);
    u8::from(d < least || greatest < d)
}

// 1 for a byte that begins no character, or one of four bytes.
#[tactic(auto, using(crate::proofs::Plain::first_cases))]
fn not_first(d: u8) -> u8
    ensures { result ≡ 0 → after table d ≡ some (come 0 d) }
{
    match d {
        0..=0x7F | 0xC2..=0xEF => 0,
        _ => 1,
    }
}

// 1 for a byte d that is wrong after the two bytes b and c before it, in a text without characters of four bytes.
#[tactic(auto, using(crate::proofs::Plain::odd_cases))]
fn odd(b: u8, c: u8, d: u8) -> u8
    ensures { result ≡ 0 → Goes b c d }
{
    if c < 0xC0 && b < 0xE0 {
        not_first(d)
    } else {
        not_next(c, d)
    }
}

// Whether none of 16 bytes is odd, each after the two before it: a block, as in `text`, from the first of those two on.
fn block(s: &[u8], i: usize) -> bool
    requires { i + 18 ≤ length s.now }
    ensures { result ≡ true → Plain s.now i (i + 16) }
{
    let mut z = 0;
    for k in 0..16 {
        z |= odd(s[i + k], s[i + k + 1], s[i + k + 2]);
    }
    z == 0
}

// Whether no byte is odd. A text that is shorter than a block with the two bytes before it is not asked.
fn is_plain(s: &[u8]) -> bool
    ensures { result ≡ true → utf8 s.now ≡ true }
{
    let n = s.len();
    if n < 18 {
        return false;
    }
    if odd(0, 0, s[0]) != 0 {
        return false;
    }
    if odd(0, s[0], s[1]) != 0 {
        return false;
    }
    let mut i = 0;
    // block by block
    while 18 <= n - i {
        if !block(s, i) {
            return false;
        }
        i += 16;
    }
    if !block(s, n - 18) {
        return false;
    }
    s[n - 1] < 0xC0 && s[n - 2] < 0xE0
}

// The UTF-8 test: RFC 3629. The tables are asked of a text that the quick tests do not pass.
pub fn is_utf8(s: &[u8]) -> bool
    ensures { result ≡ utf8 s.now }
{
    text::all_within(s, 0, 0x7F) || is_plain(s) || by_table(&CLASSES, &STEPS, s)
}
