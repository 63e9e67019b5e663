// The Shipped reading of a plural rule: a port of plurals.rs, `Ast::parse`, `parse_parens` and the levels; `reading_levels` and `reading_scan` find where
// to cut. A piece is a part of the text; its nodes are appended to lent arrays, and `Box<Ast>` is a place in them.
#![tactic(auto)]

ghost use Rattle.std.specs.Prelude.{◌≡◌, ◌+◌, ◌-◌, ◌≤◌, ◌<◌, length};
ghost use Rattle.rules.specs.Lent.{Keeps, pool_left};
ghost use Rattle.rules.specs.Store.{push};
ghost use Rattle.rules.specs.Reads.{Answered};
ghost use Rattle.reading_scan.specs.Scan.{index_of};
ghost use Rattle.reading_levels.specs.Levels.{rows, row_at};
ghost use Rattle.reading_shipped.specs.Shipped.{read_n, read_int, colon, read_not, choose, cut_at, level, parens, shipped};
ghost use Rattle.reading_shipped.specs.Private.{Gives, Cuts};

use rules::{Lent, node};
use text_trim::{Set, trim};

// n, and nothing else.
fn parse_n(s: &[u8], lent: &mut Lent<'_>, k: usize) -> Option<usize>
    requires { k + length s.now ≤ 512 }
    ensures lent { Keeps lent.old lent.new }
    ensures read { Gives (read_n s.now) (length s.now) k
        (pool_left lent.old) (pool_left lent.new) result }
{
    if s.len() != 1 || s[0] != b'n' {
        return None;
    }
    lent.put(k, node::N, 0, 0, 0);
    Some(k + 1)
}

// An integer, or n.
fn parse_int(s: &[u8], lent: &mut Lent<'_>, k: usize) -> Option<usize>
    requires { k + length s.now ≤ 512 }
    ensures lent { Keeps lent.old lent.new }
    ensures read { Gives (read_int s.now) (length s.now) k
        (pool_left lent.old) (pool_left lent.new) result }
{
    let Some(v) = text_digits::integer_of(s) else {
        return parse_n(trim(s, Set::Six), lent, k);
    };
    lent.put(k, node::INTEGER, 0, 0, v);
    Some(k + 1)
}

// The place before one, as a node holds it. Not that of `rules_pack`, which asks for a place above 0: here 0 stands for no operand.
fn before(x: usize) -> u16
    requires { x ≤ 512 }
    ensures { result ≡ x - 1 }
{
    x.saturating_sub(1) as u16
}

// Puts a node at place k; its operands end before x, y and k.
fn put_node(lent: &mut Lent<'_>, k: usize, code: u8, x: usize, y: usize) -> usize
    requires { (k < 512) × (x ≤ 512) × (y ≤ 512) }
    ensures lent { Keeps lent.old lent.new }
    ensures end { result ≡ k + 1 }
    ensures put { pool_left lent.new ≡ push (pool_left lent.old) k code (x - 1) (y - 1) 0 }
{
    lent.put(k, code, before(x), before(y), 0);
    k + 1
}

// A ! in front and what it denies; else an integer or n.
#[cycle(parse_parse_level_parse_not_parse_parens_parse_row_parse_ternary)]
fn parse_not(s: &[u8], lent: &mut Lent<'_>, k: usize) -> Option<usize>
    requires { k + length s.now ≤ 512 }
    ensures lent { Keeps lent.old lent.new }
    ensures read { Gives (read_not shipped s.now) (length s.now) k
        (pool_left lent.old) (pool_left lent.new) result }
{
    match reading_scan::index_of(s, b"!") {
        Some(0) => {
            let m = parse(&s[1..], lent, k)?;
            Some(put_node(lent, m, node::NOT, 0, 0))
        }
        _ => parse_int(trim(s, Set::Six), lent, k),
    }
}

// A text whose first ? stands at i: its three operands, and the node over them.
#[cycle(parse_parse_level_parse_not_parse_parens_parse_row_parse_ternary)]
fn parse_ternary(s: &[u8], i: usize, lent: &mut Lent<'_>, k: usize) -> Option<usize>
    requires { (k + length s.now ≤ 512) × (i < length s.now) }
    ensures lent { Keeps lent.old lent.new }
    ensures read { Gives (choose shipped i (index_of colon s.now) s.now) (length s.now) k
        (pool_left lent.old) (pool_left lent.new) result }
{
    let l = reading_scan::index_of(s, b":")?;
    if l <= i {
        return None;
    }
    let m = parse(&s[..i], lent, k)?;
    let e = parse(&s[i + 1..l], lent, m)?;
    let p = parse(&s[l + 1..], lent, e)?;
    Some(put_node(lent, p, node::TERNARY, m, e))
}

// A text in which the pattern of the row stands: the operands left and right of it, and the node over them.
#[cycle(parse_parse_level_parse_not_parse_parens_parse_row_parse_ternary)]
fn parse_row(s: &[u8], row: usize, lent: &mut Lent<'_>, k: usize) -> Option<usize>
    requires { Cuts row s.now k }
    ensures lent { Keeps lent.old lent.new }
    ensures read { Gives (cut_at shipped (row_at row) s.now) (length s.now) k
        (pool_left lent.old) (pool_left lent.new) result }
{
    let i = reading_levels::place_of(s, row).unwrap();
    let code = reading_levels::code_of(row);
    if code == node::TERNARY {
        return parse_ternary(s, i, lent, k);
    }
    let m = parse(&s[..i], lent, k)?;
    let start = i + reading_levels::width_of(row);
    let e = parse(&s[start..], lent, m)?;
    Some(put_node(lent, e, code, m, 0))
}

// `parse_and`, `parse_or` and the others down to `parse_mod`, by the table.
#[cycle(parse_parse_level_parse_not_parse_parens_parse_row_parse_ternary)]
fn parse_level(s: &[u8], lent: &mut Lent<'_>, k: usize) -> Option<usize>
    requires { k + length s.now ≤ 512 }
    ensures lent { Keeps lent.old lent.new }
    ensures read { Gives (level shipped rows s.now) (length s.now) k
        (pool_left lent.old) (pool_left lent.new) result }
{
    match reading_levels::row_of(s) {
        Some(row) => parse_row(s, row, lent, k),
        None => parse_not(trim(s, Set::Six), lent, k),
    }
}

// The inside of a bracket around the text, which loses its last byte, whatever it is; any other text goes to the levels.
// A lone "(", where the Rust panics, has no reading.
#[cycle(parse_parse_level_parse_not_parse_parens_parse_row_parse_ternary)]
fn parse_parens(s: &[u8], lent: &mut Lent<'_>, k: usize) -> Option<usize>
    requires { k + length s.now ≤ 512 }
    ensures lent { Keeps lent.old lent.new }
    ensures read { Gives (parens shipped s.now) (length s.now) k
        (pool_left lent.old) (pool_left lent.new) result }
{
    let n = s.len();
    if reading_scan::first_of(s) != b'(' {
        return parse_level(trim(s, Set::Six), lent, k);
    }
    if n == 1 {
        return None;
    }
    let inside = &s[1..n - 1];
    if reading_scan::end_of(inside) != n {
        return parse_level(trim(s, Set::Six), lent, k);
    }
    parse(trim(inside, Set::Six), lent, k)
}

// `Ast::parse`, at place k.
#[cycle(parse_parse_level_parse_not_parse_parens_parse_row_parse_ternary)]
fn parse(s: &[u8], lent: &mut Lent<'_>, k: usize) -> Option<usize>
    requires { k + length s.now ≤ 512 }
    ensures lent { Keeps lent.old lent.new }
    ensures read { Gives (shipped s.now) (length s.now) k
        (pool_left lent.old) (pool_left lent.new) result }
{
    parse_parens(trim(s, Set::Six), lent, k)
}

// The Shipped reading: the nodes of the rule's tree from place 0 on, or no reading.
pub fn shipped(s: &[u8], lent: &mut Lent<'_>) -> Option<usize>
    requires { length s.now ≤ 512 }
    ensures lent { Keeps lent.old lent.new }
    ensures read { Answered (shipped s.now) s.now
        (pool_left lent.old) (pool_left lent.new) result }
{
    parse(s, lent, 0)
}
