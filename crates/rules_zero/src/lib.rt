// Which node of a plural rule meets a zero divisor at a count. An evaluation tells that one is met (`rules_value`); what follows is done only then.
#![tactic(auto)]

ghost use Rattle.std.specs.Prelude.{◌≡◌};
ghost use Rattle.rules.specs.Pool.{pool_in};
ghost use Rattle.rules.specs.Promise.{Sound};
ghost use Rattle.rules_zero.specs.Zero.{value_at, without, step_of, zero_at, traced_of};

use rules::{NoForm, Nodes, Rule, node};
use rules_operators::settles;
use rules_value::value_at;

// Why a rule has no value at a count: this node meets a zero divisor there, or the nodes are no tree.
#[derive(Clone, Copy)]
pub enum Fault {
    ZeroDivisor(usize),
    NoTree,
}

// The operand at a place, where its tree has no value, or else its parent.
fn without(nodes: Nodes<'_>, operand: usize, parent: usize, n: u64) -> usize
    requires { Sound (pool_in nodes) operand }
    ensures { result ≡ without (value_at (pool_in nodes.entry) n operand) operand parent }
{
    if value_at(nodes, operand, n).is_some() {
        parent
    } else {
        operand
    }
}

// From a node whose tree has no value to the operand that has none: the first one, or the second one if evaluation gets to it. Where they
// have values, the node itself divides by zero.
#[tactic(auto, using(crate::proofs::Steps::inside, crate::proofs::Steps::step_leaf, crate::proofs::Steps::step_one, crate::proofs::Steps::step_first, crate::proofs::Steps::step_no, crate::proofs::Steps::step_chosen, crate::proofs::Steps::step_yes, rules::proofs::Trees::before_in, rules::proofs::Trees::down))]
fn step(nodes: Nodes<'_>, at: usize, n: u64) -> usize
    requires { Sound (pool_in nodes) at }
    ensures { result ≡ step_of (pool_in nodes.entry) n at }
{
    let code = nodes.codes[at];
    if code < node::NOT {
        return at;
    }
    let last = at - 1;
    if code < node::OP {
        return without(nodes, last, at, n);
    }
    let first = nodes.place(at, 0);
    let Some(x) = value_at(nodes, first, n) else {
        return first;
    };
    if code < node::CHOICE {
        if settles(code - node::OP, x) {
            return at;
        }
        return without(nodes, last, at, n);
    }
    if x == 0 {
        return without(nodes, last, at, n);
    }
    if code < node::TERNARY {
        return at;
    }
    without(nodes, nodes.place(at, 1), at, n)
}

// The node at which evaluation of the tree at a place meets a zero divisor.
#[tactic(auto, using(crate::proofs::Steps::step_down, crate::proofs::Steps::zero_here, crate::proofs::Steps::zero_on))]
fn zero_at(nodes: Nodes<'_>, root: usize, n: u64) -> usize
    requires { Sound (pool_in nodes) root }
    ensures { result ≡ zero_at (pool_in nodes.entry) n root }
{
    let mut at = root;
    // from a node to the operand that has no value, until there is none
    loop {
        let next = step(nodes, at, n);
        if next == at {
            return at;
        }
        at = next;
    }
}

// The value of a rule at a count, or the node that meets a zero divisor there.
#[tactic(auto, using(crate::proofs::Steps::zero_sound))]
pub fn trace(rule: Rule<'_>, n: u64) -> Result<u64, Fault>
    ensures { result ≡ traced_of (pool_in rule.entry.nodes) rule.entry.count rule.entry.root n }
{
    match rules_value::resolve(rule, n) {
        Ok(x) => Ok(x),
        Err(NoForm::ZeroModulus) => Err(Fault::ZeroDivisor(zero_at(rule.nodes, rule.root, n))),
        Err(NoForm::NoTree) => Err(Fault::NoTree),
    }
}
