// The Standard reading of a plural rule, by recursive descent over its tokens; the nodes are appended to lent arrays, each operand
// before its parent. A level is the binary operators of one rank, counted from the tightest; ?: stands above the loosest. Each part gives
// the next free place and the position after what was read, or nothing where there is no reading.
#![tactic(auto)]

ghost use Rattle.std.specs.Prelude.{◌≡◌, ◌<◌, ◌≤◌, ◌-◌, length};
ghost use Rattle.rules.specs.Lent.{Keeps, pool_left};
ghost use Rattle.reading_grammar.specs.Grammar.{full};
ghost use Rattle.reading_standard.specs.Private.{Room, LevelWrote, MoreWrote, PrefixWrote};
ghost use Rattle.rules.specs.Reads.{Answered};
ghost use Rattle.reading_grammar.specs.Reading.{standard};

use reading_tokens::{Next, past, rank_of, token_at};
use rules::{Lent, node};

// The loosest rank; ?: stands after texts of this level.
const LOOSEST: u8 = 6;

// The level of a whole rule.
const FULL: u8 = 7;

#[cycle(read_level_read_more_read_prefix)]
fn read_level(s: &[u8], lent: &mut Lent<'_>, l: u8, at: usize, k: usize) -> Option<(usize, usize)>
    requires { (l ≤ full) × Room s.now at k }
    ensures lent { Keeps lent.old lent.new }
    ensures read { LevelWrote l s.now at k
        (pool_left lent.old) (pool_left lent.new) result }
{
    // the levels in a loop, and not each in a call of its own: a bracket then takes two frames of the stack and not eight
    let (mut m, mut q) = read_prefix(s, lent, at, k)?;
    for j in 0..l {
        (m, q) = read_more(s, lent, j, q, m)?;
    }
    Some((m, q))
}

// A left operand is stored below place m: the operators of rank j + 1 after it, each with its right operand.
#[cycle(read_level_read_more_read_prefix)]
fn read_more(s: &[u8], lent: &mut Lent<'_>, j: u8, at: usize, m: usize) -> Option<(usize, usize)>
    requires { (j < full) × (0 < m) × Room s.now at m }
    ensures lent { Keeps lent.old lent.new }
    ensures read { MoreWrote j s.now at m
        (pool_left lent.old) (pool_left lent.new) result }
{
    match token_at(s, at) {
        Next::Sign(c, e) if rank_of(c) == j + 1 => {
            let (w, q) = read_level(s, lent, j, e, m)?;
            lent.put(w, c, (m - 1) as u16, 0, 0);
            read_more(s, lent, j, q, w + 1)
        }
        Next::Mark(b'?', e) if j == LOOSEST => {
            let (v, i) = read_level(s, lent, FULL, e, m)?;
            let p = past(s, i, b':')?;
            let (w, q) = read_level(s, lent, FULL, p, v)?;
            let condition = (m - 1) as u16;
            let first = (v - 1) as u16;
            lent.put(w, node::TERNARY, condition, first, 0);
            Some((w + 1, q))
        }
        _ => Some((m, at)),
    }
}

#[cycle(read_level_read_more_read_prefix)]
fn read_prefix(s: &[u8], lent: &mut Lent<'_>, at: usize, k: usize) -> Option<(usize, usize)>
    requires { Room s.now at k }
    ensures lent { Keeps lent.old lent.new }
    ensures read { PrefixWrote s.now at k
        (pool_left lent.old) (pool_left lent.new) result }
{
    match token_at(s, at) {
        Next::Mark(b'n', e) => {
            lent.put(k, node::N, 0, 0, 0);
            Some((k + 1, e))
        }
        Next::Mark(b'!', e) => {
            let (m, q) = read_level(s, lent, 0, e, k)?;
            lent.put(m, node::NOT, 0, 0, 0);
            Some((m + 1, q))
        }
        Next::Mark(b'(', e) => {
            let (m, q) = read_level(s, lent, FULL, e, k)?;
            let p = past(s, q, b')')?;
            Some((m, p))
        }
        Next::Number(v, e) => {
            lent.put(k, node::INTEGER, 0, 0, v);
            Some((k + 1, e))
        }
        _ => None,
    }
}

// Reads a whole text.
pub fn standard(s: &[u8], lent: &mut Lent<'_>) -> Option<usize>
    requires { length s.now ≤ 512 }
    ensures lent { Keeps lent.old lent.new }
    ensures read { Answered (standard s.now) s.now
        (pool_left lent.old) (pool_left lent.new) result }
{
    let (k, q) = read_level(s, lent, FULL, 0, 0)?;
    match token_at(s, q) {
        Next::End => Some(k),
        _ => None, // a token after it
    }
}
