// Which forms a rule names over a span of counts, and how often.
#![tactic(auto)]

ghost use Rattle.std.specs.Prelude.{◌≡◌, ◌<◌, ◌≤◌, ◌+◌, ◌^◌, get_or};
ghost use Rattle.rules.specs.Pool.{pool_in, tree_of};
ghost use Rattle.rules.specs.Promise.{Sound};
ghost use Rattle.rules_span.specs.Span.{line_of, bump, tallied, no_figures, tally_of, figures_of, number};

use refusal::Error;
use rules::{Nodes, Rule};

// The figures of forms 0 to 15, then of those above, then of the counts that meet a zero divisor.
pub const LINES: usize = 18;

// Why a rule's forms are not counted over a span: it is no span of at most 1,000,000 counts, or the nodes are no tree.
#[derive(Clone, Copy)]
pub enum Uncounted {
    BadSpan,
    NoTree,
}

// The line that a value counts on.
#[tactic(auto, using(crate::proofs::Figures::line_min), unfolding(crate::specs::Span::line_of))]
fn line_of(value: Option<u64>) -> usize
    ensures { result ≡ line_of value }
{
    match value {
        Some(form) => form.min(16) as usize,
        None => 17,
    }
}

#[tactic(auto, unfolding(crate::specs::Span::bump))]
fn count_one(figures: &mut [u64; LINES], line: usize)
    requires { (line < 18) × (get_or figures.old line 0 + 1 < 2 ^ 64) }
    ensures { figures.new ≡ bump figures.old line }
{
    figures[line] += 1;
}

// Counts on, from no figures, over the first counts from a on.
#[tactic(auto, using(crate::proofs::Figures::line_of_in, crate::proofs::Figures::room, crate::proofs::Figures::counted_on, crate::proofs::Figures::from_none))]
fn count(nodes: Nodes<'_>, root: usize, a: u64, many: u64, figures: &mut [u64; LINES])
    requires sound { Sound (pool_in nodes) root }
    requires few { (many ≤ 1000000) × (a + many ≤ 2 ^ 64) }
    requires blank { figures.old ≡ no_figures }
    ensures { figures.new ≡ tallied (tree_of (pool_in nodes.entry) root) a many }
{
    for k in 0..many {
        count_one(figures, line_of(rules_value::value_at(nodes, root, a + k)));
    }
}

// How a tally went, as a number: 0, or the number of the refusal.
pub fn number_of(counted: Result<(), Uncounted>) -> u32
    ensures { result ≡ number counted }
{
    match counted {
        Ok(()) => 0,
        Err(Uncounted::BadSpan) => refusal::number_of(Error::BadSpan),
        Err(Uncounted::NoTree) => refusal::number_of(Error::BadRecord),
    }
}

// How often each form occurs for the counts from a to b, both counted in. The tree is tested once, not at every count.
pub fn tally(rule: Rule<'_>, a: u64, b: u64, figures: &mut [u64; LINES]) -> Result<(), Uncounted>
    ensures answer { result ≡ tally_of (pool_in rule.entry.nodes) rule.entry.count rule.entry.root a b }
    ensures figures { figures.new ≡
        figures_of (pool_in rule.entry.nodes) rule.entry.count rule.entry.root a b }
{
    *figures = [0; LINES];
    if !rules_tree::is_tree(rule.nodes.codes, rule.nodes.places, rule.count, rule.root) {
        return Err(Uncounted::NoTree);
    }
    if b < a {
        return Err(Uncounted::BadSpan);
    }
    if 999_999 < b - a {
        return Err(Uncounted::BadSpan);
    }
    count(rule.nodes, rule.root, a, b - a + 1, figures);
    Ok(())
}
