// What the Shipped reading looks for in a text: a pattern outside brackets, and where a bracket ends. A port of plurals.rs: `index_of` and
// the fold of `parse_parens`; their folds are loops over the bytes.
#![tactic(auto)]

ghost use Rattle.std.specs.Prelude.{◌≡◌, ◌&&◌, ◌<◌, ◌≤◌, eqb, length, get_or};
ghost use Rattle.reading_scan.specs.Scan.{counted, found_at, deeper, further, end_from};
ghost use Rattle.reading_scan.specs.Private.{matched};

// One more if the byte is b.
fn count(n: usize, b: u8, ch: u8) -> usize
    requires { n < 18446744073709551615 }
    ensures { result ≡ counted n b ch }
{
    if ch == b { n + 1 } else { n }
}

// How many signs of the pattern are matched after a byte, of which n were before.
fn match_on(pat: &[u8], n: usize, ch: u8) -> usize
    ensures { result ≡ matched pat.now n ch }
{
    match pat.get(n) {
        Some(&sign) if sign == ch => n + 1,
        _ => 0,
    }
}

// The first byte, 0 where there is none: no Option, since the definitions that the readings keep to (specs/) have that 0.
pub fn first_of(s: &[u8]) -> u8
    ensures { result ≡ get_or s.now 0 0 }
{
    s.first().copied().unwrap_or(0)
}

// Whether all m signs are matched, and the level is zero.
fn is_match(n: usize, m: usize, opened: usize, closed: usize) -> bool
    ensures { result ≡ (eqb n m && eqb opened closed) }
{
    n == m && opened == closed
}

// Where the pattern stands outside brackets.
pub fn index_of(s: &[u8], pat: &[u8]) -> Option<usize>
    requires { 0 < length pat.now }
    ensures { result ≡ found_at pat.now s.now }
{
    let mut n = 0;
    let mut opened = 0;
    let mut closed = 0;
    for (i, &ch) in s.iter().enumerate() {
        opened = count(opened, b'(', ch);
        closed = count(closed, b')', ch);
        n = match_on(pat, n, ch);
        if is_match(n, pat.len(), opened, closed) {
            return Some(i + 1 - n);
        }
    }
    None
}

// The level and the index after a byte.
fn level_on(level: usize, ch: u8) -> usize
    requires { level < 18446744073709551615 }
    ensures { result ≡ deeper level ch }
{
    if 0 < level && ch == b')' {
        level - 1
    } else {
        count(level, b'(', ch)
    }
}

fn index_on(level: usize, index: usize, ch: u8) -> usize
    requires { index < 18446744073709551615 }
    ensures { result ≡ further level index ch }
{
    if 0 < level {
        index + 1
    } else {
        count(index, b'(', ch)
    }
}

// The fold of `parse_parens` over the inside of a bracket.
pub fn end_of(s: &[u8]) -> usize
    requires { length s.now ≤ 512 }
    ensures { result ≡ end_from s.now 1 2 }
{
    let mut level = 1;
    let mut index = 2;
    for &ch in s {
        index = index_on(level, index, ch);
        level = level_on(level, ch);
    }
    index
}
