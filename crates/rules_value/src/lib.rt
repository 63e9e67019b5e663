// The value of a plural rule at a count. A port of plurals.rs: `resolve`.
#![tactic(auto)]

ghost use Rattle.std.specs.Prelude.{◌≡◌, true, ◌<◌, ◌+◌, ◌-◌, ◌*◌, get_or};
ghost use Rattle.rules.specs.Value.{eval_tree};
ghost use Rattle.rules.specs.Pool.{pool_in, leaf, tree_of, nay_node, pair_op};
ghost use Rattle.rules.specs.Promise.{Sound};
ghost use Rattle.rules.specs.Answer.{resolved_of};
ghost use Rattle.rules_operators.specs.Operator.{Gives};
ghost use Rattle.rules_tree.specs.Promise.{above, Run};
ghost use Rattle.rules_value.specs.Private.{Lifts};

use rules::{NoForm, Nodes, Rule, node};
use rules_operators::{apply, settles, truth};
use rules_tree::base;

// The integer in the first field of the node at a place.
fn small(nodes: Nodes<'_>, at: usize) -> u64
    requires { at < 512 }
    ensures { result ≡ get_or nodes.entry.places.now (2 * at + 0) 0 }
{
    u64::from(nodes.field(at, 0))
}

// The value of a node that has no operand, by its code, its first field and its value.
fn leaf(code: u8, m: u64, v: u64, n: u64, zero: &mut bool) -> u64
    requires { code < nay_node }
    ensures { Gives (eval_tree (leaf code m v) n) zero.old zero.new result }
{
    if code == node::N {
        return n;
    }
    if code < node::N_OP {
        return v;
    }
    if code < node::REST_OP {
        return apply(code - node::N_OP, n, v, zero);
    }
    let x = apply(node::MODULO, n, m, zero);
    apply(code - node::REST_OP, x, v, zero)
}

// The value of a node with one operand, by its operand's.
fn one(nodes: Nodes<'_>, at: usize, x: u64, zero: &mut bool) -> u64
    requires sound { Sound (pool_in nodes) at }
    requires one { above (get_or nodes.codes.now at 0) pair_op ≡ true }
    ensures { Lifts (pool_in nodes.entry) (at - 1) at
        x zero.old zero.new result }
{
    let code = nodes.codes[at];
    if code == node::NOT {
        return truth(x == 0);
    }
    if code < node::VALUE_OP {
        if x == 0 {
            return small(nodes, at);
        }
        return nodes.values[at];
    }
    apply(code - node::VALUE_OP, x, nodes.values[at], zero)
}

// The value of the last of a run of nodes with one operand, by the value of the node that the run stands on.
fn up(nodes: Nodes<'_>, base: usize, at: usize, x: u64, zero: &mut bool) -> u64
    requires sound { Sound (pool_in nodes) at }
    requires run { Run nodes.codes.now at pair_op base }
    ensures { Lifts (pool_in nodes.entry) base at
        x zero.old zero.new result }
{
    let mut y = x;
    for p in base..at {
        y = one(nodes, p + 1, y, zero);
    }
    y
}

// The value of an operand. A leaf is answered without a call of `eval`.
#[cycle(eval_operand)]
fn operand(nodes: &Nodes<'_>, at: usize, n: u64, zero: &mut bool) -> u64
    requires { Sound (pool_in nodes.now) at }
    ensures { Gives (eval_tree (tree_of (pool_in nodes.now) at) n)
        zero.old zero.new result }
{
    let code = nodes.codes[at];
    if code < node::NOT {
        return leaf(code, small(*nodes, at), nodes.values[at], n, zero);
    }
    eval(nodes, at, n, zero)
}

// The value of the tree at a place. A remainder by zero that is met sets the flag, and the walk goes on: whatever is met is needed, so
// no number counts then. A flag beside the number and no `Option`: with one the Russian rule took 68 ns in place of 62, the
// Arabic 72 in place of 60.
//
// It takes a frame of the stack for a node with two or three operands, and one for a run of nodes with one. The first has another operand
// beside the one that is walked, the second stands on one of the first or on a leaf, and no place is an operand twice: two frames have
// three nodes at least, and 512 nodes, altered ones too, make 341 frames at most.
// The nodes are lent from frame to frame and not handed by value, which took 192 bytes a frame in place of 64 and a quarter more time; what is no
// part of the recursion takes them by value.
#[cycle(eval_operand)]
fn eval(nodes: &Nodes<'_>, at: usize, n: u64, zero: &mut bool) -> u64
    requires { Sound (pool_in nodes.now) at }
    ensures { Gives (eval_tree (tree_of (pool_in nodes.now) at) n)
        zero.old zero.new result }
{
    let code = nodes.codes[at];
    if code < node::NOT {
        return leaf(code, small(*nodes, at), nodes.values[at], n, zero);
    }
    if code < node::OP {
        let base = base(nodes.codes, at - 1, node::OP);
        let x = operand(nodes, base, n, zero);
        return up(*nodes, base, at, x, zero);
    }
    let x = operand(nodes, nodes.place(at, 0), n, zero);
    if node::CHOICE <= code {
        if x == 0 {
            return eval(nodes, at - 1, n, zero);
        }
        if code < node::TERNARY {
            return nodes.values[at];
        }
        return eval(nodes, nodes.place(at, 1), n, zero);
    }
    if settles(code - node::OP, x) {
        return apply(code - node::OP, x, 0, zero);
    }
    let y = eval(nodes, at - 1, n, zero);
    apply(code - node::OP, x, y, zero)
}

// The value of the tree at a place at a count, of nodes that passed the test.
pub fn value_at(nodes: Nodes<'_>, at: usize, n: u64) -> Option<u64>
    requires { Sound (pool_in nodes) at }
    ensures { result ≡ eval_tree (tree_of (pool_in nodes.entry) at) n }
{
    let mut zero = false;
    let x = operand(&nodes, at, n, &mut zero);
    if zero { None } else { Some(x) }
}

// The value of a rule at a count.
pub fn resolve(rule: Rule<'_>, n: u64) -> Result<u64, NoForm>
    ensures { result ≡ resolved_of (pool_in rule.entry.nodes) rule.entry.count rule.entry.root n }
{
    if !rules_tree::is_tree(rule.nodes.codes, rule.nodes.places, rule.count, rule.root) {
        return Err(NoForm::NoTree);
    }
    value_at(rule.nodes, rule.root, n).ok_or(NoForm::ZeroModulus)
}
