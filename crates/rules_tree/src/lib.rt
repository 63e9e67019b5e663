// The test that the nodes of a rule are a tree, place by place with a mark for each operand. A record can be altered, so every
// plural lookup and every rating begins with it. And where a walk over them can go in a loop.
#![tactic(auto)]

ghost use Rattle.std.specs.Prelude.{◌≡◌, true, ◌&&◌, [], ◌+◌, ◌<◌, ◌≤◌, ◌*◌, length, get_or};
ghost use Rattle.rules.specs.Pool.{pool, nay_node, distinct, used, shaped, is_tree};
ghost use Rattle.rules_tree.specs.Promise.{above, Stands};
ghost use Rattle.rules_tree.specs.Private.{Unmarked, Marked, Took, Placed};

use rules::{node, place};

// Above all codes.
pub const CODES: u8 = node::TERNARY + 1;

// Most rules have no more nodes, and so many marks are cleared at once.
const FEW: usize = 64;

// Whether the operand that field j of the node at p names lies below it and is no operand yet; it is marked as one then.
fn takes(places: &[u16; 1024], marks: &mut [u8], p: usize, j: usize) -> bool
    requires { (p < 512) × (j < 2) × (p < length marks.old) }
    ensures { Took (get_or places.now (2 * p + j) 0) p marks.old marks.new result }
{
    let q = place(places, p, j);
    if p <= q {
        return false;
    }
    if marks[q] != 0 {
        return false;
    }
    marks[q] = 1;
    true
}

// Whether the node at p has a known code and takes all its operands. No node before it can have taken the place before it.
fn is_node(codes: &[u8; 512], places: &[u16; 1024], marks: &mut [u8], p: usize) -> bool
    requires room { (p < 512) × (p < length marks.old) }
    requires before { (shaped (pool codes.now places.now []) p ≡ true) × Marked marks.old (used (pool codes.now places.now []) p) }
    ensures { Placed (pool codes.now places.now []) p marks.old marks.new result }
{
    let code = codes[p];
    if code < node::NOT {
        return true;
    }
    if p == 0 {
        return false;
    }
    marks[p - 1] = 1;
    if code < node::OP {
        return true;
    }
    if !takes(places, marks, p, 0) {
        return false;
    }
    if code < node::TERNARY {
        return true;
    }
    if code != node::TERNARY {
        return false;
    }
    takes(places, marks, p, 1)
}

// Whether every node passes, and none is an operand twice.
fn passes(codes: &[u8; 512], places: &[u16; 1024], marks: &mut [u8], count: usize) -> bool
    requires { (count ≤ 512) × (count ≤ length marks.old) × Unmarked marks.old }
    ensures { result ≡ (shaped (pool codes.now places.now []) count && distinct (used (pool codes.now places.now []) count)) }
{
    for p in 0..count {
        if !is_node(codes, places, marks, p) {
            return false;
        }
    }
    true
}

// Whether the nodes are a tree. The values are not looked at.
pub fn is_tree<'a>(codes: &'a [u8; 512], places: &'a [u16; 1024], count: usize, root: usize) -> bool
    ensures { result ≡ is_tree (pool codes.now places.now []) count root }
{
    if rules::MOST < count {
        return false;
    }
    if count <= root {
        return false;
    }
    if count <= FEW {
        let mut marks = [0u8; 64];
        return passes(codes, places, &mut marks, count);
    }
    let mut marks = [0u8; 512];
    passes(codes, places, &mut marks, count)
}

// Whether a node has an operand, and its code is below an end.
fn is_above(code: u8, end: u8) -> bool
    ensures { result ≡ above code end }
{
    node::NOT <= code && code < end
}

// The place of the node that a run of nodes stands on, which ends at a place: each has an operand, of which the last is always the node before, and a
// code below an end. So a walk goes up such a run in a loop and takes no stack for it: with the end `node::OP`, of nodes with one operand
// only; with `CODES`, of all, and the run stands on a leaf.
pub fn base(codes: &[u8; 512], at: usize, end: u8) -> usize
    requires { (at < 512) × (get_or codes.now 0 0 < nay_node) }
    ensures { Stands codes.now at end result }
{
    // no count: the place where the run begins is looked for, downwards
    let mut p = at;
    while is_above(codes[p], end) {
        p -= 1;
    }
    p
}
