// The range of a plural rule, by the range table, and whether its forms are all below a number. The nodes are those of `rules`.
#![tactic(auto)]

ghost use Rattle.std.specs.Prelude.{◌≡◌, ◌+◌, ◌-◌, ◌<◌, ◌≤◌, ◌*◌, ◌^◌, min, max, get_or, Some};
ghost use Rattle.rules.specs.Tree.{rem};
ghost use Rattle.rules.specs.Range.{full_range, bin_range, cond_range, rate_tree};
ghost use Rattle.rules.specs.Pool.{pool_in, tree_of, nay_node, pair_op};
ghost use Rattle.rules.specs.Promise.{Sound};
ghost use Rattle.rules.specs.Answer.{rated_of, fit_of};
ghost use Rattle.rules_range.specs.Private.{Calculates, Ranges, Joins, from_to, Lifts};

use rules::{NoTree, Nodes, Rule, node};
use rules_tree::{CODES, base};

// The range of n: all numbers.
const ALL: (u64, u64) = (0, u64::MAX);

// The range of a sum, a difference or a product: its own where it cannot wrap, else all numbers.
fn calculated(op: u8, k: u64, h: u64, l: u64, m: u64) -> (u64, u64)
    requires { (k ≤ h) × (l ≤ m) }
    ensures { Calculates op k h l m (Some result) }
{
    match op {
        node::PLUS => match h.checked_add(m) {
            Some(highest) => (k + l, highest),
            None => ALL,
        },
        node::MINUS => { if m <= k { (k - m, h - l) } else { ALL } }
        _ => match h.checked_mul(m) {
            Some(highest) => (k * l, highest),
            None => ALL,
        },
    }
}

// The range of a binary operator on a left operand from k to h and a right one from l to m. The operators before % yield truths.
#[tactic(auto, using(crate::proofs::Ranges::truths, crate::proofs::Ranges::by_zero))]
fn ranged(op: u8, k: u64, h: u64, l: u64, m: u64) -> Option<(u64, u64)>
    requires { (k ≤ h) × (l ≤ m) }
    ensures { Ranges op k h l m result }
{
    if op < node::MODULO {
        return Some((0, 1));
    }
    if node::PLUS <= op {
        return Some(calculated(op, k, h, l, m));
    }
    if l == 0 {
        return None;
    }
    if op == node::MODULO {
        return Some((0, h.min(m - 1)));
    }
    Some((k / m, h / l))
}

// A range as two numbers: leaves the highest, and answers the lowest. There is none where the lowest is above the highest: 1 and 0.
// No Option: the 256 frames of the walk below have to fit the 32 KiB of stack that the hosts' tests give. They take 16,528 bytes, and with ranges
// by value, which was tried, 36,952.
fn ends(low: u64, highest: u64, high: &mut u64) -> u64
    ensures { (result ≡ low) × (high.new ≡ highest) }
{
    *high = highest;
    low
}

// The range of a binary operator on a left operand from k to h and a right one from l.
#[tactic(auto, using(crate::proofs::Ranges::left_none, crate::proofs::Ranges::right_none, crate::proofs::Ranges::op_none))]
fn binary(op: u8, k: u64, h: u64, l: u64, high: &mut u64) -> u64
    ensures { Joins op (from_to k h) (from_to l high.old) (from_to result high.new) }
{
    let m = *high;
    if h < k {
        return ends(1, 0, high);
    }
    if m < l {
        return ends(1, 0, high); // reached or not
    }
    let Some((low, highest)) = ranged(op, k, h, l, m) else {
        return ends(1, 0, high);
    };
    ends(low, highest, high)
}

// The range of ?: with a rated condition, a second operand from k to h and a third one from l.
#[tactic(auto, using(crate::proofs::Ranges::second_none, crate::proofs::Ranges::third_none, crate::proofs::Ranges::both_arms))]
fn either(k: u64, h: u64, l: u64, high: &mut u64) -> u64
    ensures { from_to result high.new ≡ cond_range full_range (from_to k h) (from_to l high.old) }
{
    let m = *high;
    if h < k {
        return ends(1, 0, high);
    }
    if m < l {
        return ends(1, 0, high);
    }
    ends(k.min(l), h.max(m), high)
}

// The range of n % m.
fn rest(m: u64, high: &mut u64) -> u64
    ensures { from_to result high.new ≡ bin_range rem full_range (Some (m, m)) }
{
    *high = m;
    binary(node::MODULO, 0, u64::MAX, m, high)
}

// The range of a node that has no operand.
#[tactic(auto, using(crate::proofs::Ranges::range_of_lem, crate::proofs::Ranges::ends_of, crate::proofs::Ranges::rate_count, crate::proofs::Ranges::rate_int))]
fn leaf(nodes: &Nodes<'_>, at: usize, high: &mut u64) -> u64
    requires sound { Sound (pool_in nodes.now) at }
    requires leaf { get_or nodes.now.codes.now at 0 < nay_node }
    ensures { from_to result high.new ≡ rate_tree (tree_of (pool_in nodes.now) at) }
{
    let code = nodes.codes[at];
    if code == node::N {
        return ends(0, u64::MAX, high);
    }
    let v = nodes.values[at];
    *high = v;
    if code < node::N_OP {
        return v;
    }
    if code < node::REST_OP {
        return binary(code - node::N_OP, 0, u64::MAX, v, high);
    }
    let mut h = 0;
    let k = rest(nodes.field(at, 0) as u64, &mut h);
    binary(code - node::REST_OP, k, h, v, high)
}

// The range of a node with one operand, by its operand's.
#[tactic(auto, using(crate::proofs::Ranges::none_of, crate::proofs::Ranges::rate_none, rules::proofs::Trees::before_in))]
fn one(nodes: &Nodes<'_>, at: usize, low: u64, high: &mut u64) -> u64
    requires sound { Sound (pool_in nodes.now) at }
    requires one { (nay_node ≤ get_or nodes.now.codes.now at 0) × (get_or nodes.now.codes.now at 0 < pair_op) }
    ensures { Lifts (pool_in nodes.now) (at - 1) at
        low high.old result high.new }
{
    let h = *high;
    if h < low {
        return low;
    }
    let code = nodes.codes[at];
    if code == node::NOT {
        return ends(0, 1, high);
    }
    let v = nodes.values[at];
    if code < node::VALUE_OP {
        let m = nodes.field(at, 0) as u64;
        *high = m;
        return either(v, v, m, high);
    }
    *high = v;
    binary(code - node::VALUE_OP, low, h, v, high)
}

// The range of a node with operands, by its last one's, which is the node before.
#[cycle(above_rate)]
#[tactic(auto, using(rules_tree::proofs::Runs::inside))]
fn above(nodes: &Nodes<'_>, at: usize, low: u64, high: &mut u64) -> u64
    requires sound { Sound (pool_in nodes.now) at }
    requires above { nay_node ≤ get_or nodes.now.codes.now at 0 }
    ensures { Lifts (pool_in nodes.now) (at - 1) at
        low high.old result high.new }
{
    let code = nodes.codes[at];
    if code < node::OP {
        return one(nodes, at, low, high);
    }
    let mut h = 0;
    let first = rate(nodes, nodes.place(at, 0), &mut h);
    if code < node::CHOICE {
        return binary(code - node::OP, first, h, low, high);
    }
    if h < first {
        return ends(1, 0, high);
    }
    if code < node::TERNARY {
        let v = nodes.values[at];
        return either(v, v, low, high);
    }
    let second = rate(nodes, nodes.place(at, 1), &mut h);
    either(second, h, low, high)
}

// The range of the tree at a place: up from the leaf that its last operands end in, in a loop.
//
// It takes a frame of the stack where a first or a second operand is walked. Such a node has its last operand beside it, and no place is an
// operand twice: 512 nodes, altered ones too, make 256 frames at most. The nodes are lent, since by value they would lie in each frame.
#[cycle(above_rate)]
#[tactic(auto, using(rules_tree::proofs::Runs::down_to, crate::proofs::Ranges::moved))]
fn rate(nodes: &Nodes<'_>, at: usize, high: &mut u64) -> u64
    requires { Sound (pool_in nodes.now) at }
    ensures { from_to result high.new ≡ rate_tree (tree_of (pool_in nodes.now) at) }
{
    let leaf_at = base(nodes.codes, at, CODES);
    let mut low = leaf(nodes, leaf_at, high);
    for p in leaf_at + 1..at + 1 {
        low = above(nodes, p, low, high);
    }
    low
}

// The range of a rule.
pub fn rating_of(rule: Rule<'_>) -> Result<Option<(u64, u64)>, NoTree>
    ensures { result ≡ rated_of (pool_in rule.entry.nodes) rule.entry.count rule.entry.root }
{
    if !rules_tree::is_tree(rule.nodes.codes, rule.nodes.places, rule.count, rule.root) {
        return Err(NoTree);
    }
    let mut high = 0;
    let low = rate(&rule.nodes, rule.root, &mut high);
    if high < low {
        return Ok(None);
    }
    Ok(Some((low, high)))
}

// Whether a rule fits k: it is rated, and its highest is below k.
pub fn fits(rule: Rule<'_>, k: u64) -> Result<bool, NoTree>
    ensures { result ≡ fit_of (pool_in rule.entry.nodes) rule.entry.count rule.entry.root k }
{
    match rating_of(rule)? {
        Some((_, high)) => Ok(high < k),
        None => Ok(false),
    }
}
