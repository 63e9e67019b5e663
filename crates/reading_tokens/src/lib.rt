// The tokens of a plural rule, one after the other: the token that stands next from a position on, and the position after it.
#![tactic(auto)]

ghost use Rattle.std.specs.Prelude.{◌≡◌, ◌<◌, length};
ghost use Rattle.reading_grammar.specs.Tokens.{blank};
ghost use Rattle.reading_tokens.specs.Scan.{Operator, Ranks, skipped, next, passed};
ghost use Rattle.reading_tokens.specs.Private.{pair_code, single_code, ran};

use rules::node;

// The next token and the position after it: an operator by its node's code, an integer of 64 bits or Huge, or any other byte. The code is a
// byte and no enum, since it is what goes into the arrays of nodes, whose elements the C interface fixes.
#[derive(Clone, Copy)]
pub enum Next {
    End,
    Sign(u8, usize),
    Number(u64, usize),
    Huge,
    Mark(u8, usize),
}

// The rank of each operator, 1 the tightest.
const RANK: [u8; 13] = [4, 4, 3, 3, 3, 3, 5, 6, 1, 1, 2, 2, 1];

// The rank of an operator.
pub fn rank_of(c: u8) -> u8
    requires { Operator c }
    ensures { Ranks c result }
{
    RANK[usize::from(c - node::OP)]
}

// The code of the operator that a byte is together with the first after it.
#[tactic(auto, unfolding(rules::specs::Operator::op_code))]
fn pair(b: u8, after: &[u8]) -> Option<u8>
    ensures { result ≡ pair_code b after.now }
{
    match (b, *after.first()?) {
        (b'=', b'=') => Some(node::OP + node::EQUAL),
        (b'!', b'=') => Some(node::OP + node::NOT_EQUAL),
        (b'<', b'=') => Some(node::OP + node::SMALLER_OR_EQUAL),
        (b'>', b'=') => Some(node::OP + node::GREATER_OR_EQUAL),
        (b'&', b'&') => Some(node::OP + node::AND),
        (b'|', b'|') => Some(node::OP + node::OR),
        _ => None,
    }
}

// The code of the operator that one byte is.
#[tactic(auto, unfolding(rules::specs::Operator::op_code))]
fn single(b: u8) -> Option<u8>
    ensures { result ≡ single_code b }
{
    match b {
        b'%' => Some(node::OP + node::MODULO),
        b'/' => Some(node::OP + node::DIVIDE),
        b'*' => Some(node::OP + node::TIMES),
        b'+' => Some(node::OP + node::PLUS),
        b'-' => Some(node::OP + node::MINUS),
        b'<' => Some(node::OP + node::SMALLER),
        b'>' => Some(node::OP + node::GREATER),
        _ => None,
    }
}

fn is_blank(b: u8) -> bool
    ensures { result ≡ blank b }
{
    b == b' ' || b == b'\t'
}

// Past the blanks.
fn skip(s: &[u8], at: usize) -> usize
    ensures { result ≡ skipped s.now at }
{
    for i in at..s.len() {
        if !is_blank(s[i]) {
            return i;
        }
    }
    at.max(s.len())
}

// The integer whose digits begin at a position.
fn integer(s: &[u8], at: usize) -> Next
    requires { at < length s.now }
    ensures { result ≡ ran 0 s.now at }
{
    let mut v = 0;
    for i in at..s.len() {
        if !text_digits::is_digit(s[i]) {
            return Next::Number(v, i);
        }
        let Some(longer) = text_digits::digit_on(v, s[i]) else {
            return Next::Huge;
        };
        v = longer;
    }
    Next::Number(v, s.len())
}

// The token that stands next.
pub fn token_at(s: &[u8], at: usize) -> Next
    ensures { result ≡ next s.now at }
{
    let i = skip(s, at);
    let Some(&b) = s.get(i) else {
        return Next::End;
    };
    if text_digits::is_digit(b) {
        return integer(s, i);
    }
    if let Some(code) = pair(b, &s[i + 1..]) {
        return Next::Sign(code, i + 2);
    }
    match single(b) {
        Some(code) => Next::Sign(code, i + 1),
        None => Next::Mark(b, i + 1),
    }
}

// Past a byte that has to come next.
pub fn past(s: &[u8], at: usize, c: u8) -> Option<usize>
    ensures { result ≡ passed c (next s.now at) }
{
    match token_at(s, at) {
        Next::Mark(b, e) if b == c => Some(e),
        _ => None,
    }
}
