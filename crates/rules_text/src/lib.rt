// The text of a rule, with round brackets around every operator and its operands. The Standard reading of that text gives the rule back, and so does
// the Shipped one if the rule has no + - * / (crate `reading_bracketed`).
#![tactic(auto)]

ghost use Rattle.std.specs.Prelude.{◌≡◌, [], ◌∷◌, ◌<◌, ◌≤◌, length, get_or};
ghost use Rattle.rules.specs.Operator.{op_of};
ghost use Rattle.rules.specs.Tree.{bin, rem, var, int};
ghost use Rattle.rules.specs.Pool.{pool_in, tree_of, nay_node};
ghost use Rattle.rules.specs.Promise.{Sound};
ghost use Rattle.rules_text.specs.Bracketed.{bracketed};
ghost use Rattle.rules_text.specs.Writing.{writing_of, left_by, BoundedBy};
ghost use Rattle.rules_text.specs.Private.{On, Puts, PutsTree, PutsValue, PutsHead, PutsTail, sign_by};

use rules::{Nodes, Rule, node};
use rules_tree::{CODES, base};

// The most bytes of a rule's text.
const MOST: usize = 512;

// Why a rule's text is not written into a buffer: it has more than 512 bytes or more than the buffer, or the nodes are no tree.
#[derive(Clone, Copy)]
pub enum Unwritten {
    TooLong,
    NoTree,
}

// The bytes of an operator, by its number.
#[tactic(auto, unfolding(rules::specs::Operator::op_of, rules::specs::Operator::op_at))]
fn sign(op: u8) -> &'static [u8]
    ensures { result.now ≡ sign_by (op_of op) }
{
    match op {
        node::EQUAL => b"==",
        node::NOT_EQUAL => b"!=",
        node::GREATER_OR_EQUAL => b">=",
        node::SMALLER_OR_EQUAL => b"<=",
        node::GREATER => b">",
        node::SMALLER => b"<",
        node::AND => b"&&",
        node::OR => b"||",
        node::MODULO => b"%",
        node::DIVIDE => b"/",
        node::PLUS => b"+",
        node::MINUS => b"-",
        node::TIMES => b"*",
        _ => b"",
    }
}

// The text of a rule as far as it is put, and the place after it. A text that does not fit ends at 513, wherever it began.
#[derive(Drop)]
struct Text {
    bytes: [u8; MOST],
    end: usize,
}

impl Text {
    // Puts a byte.
    fn put(&mut self, b: u8)
        ensures { On (Puts (b ∷ [])) self.old self.new }
    {
        // read once: after the byte is written, the machine would read the place from memory again
        let end = self.end;
        if MOST <= end {
            self.end = MOST + 1;
            return;
        }
        self.bytes[end] = b;
        self.end = end + 1;
    }

    // Puts a number in decimal digits.
    #[tactic(auto, using(crate::proofs::Decimal::split))]
    fn put_number(&mut self, v: u64)
        ensures { On (PutsTree (int v)) self.old self.new }
    {
        if v < 10 {
            self.put(b'0' + v as u8);
            return;
        }
        self.put_number(v / 10);
        self.put(b'0' + (v % 10) as u8);
    }

    // Puts n % m.
    fn put_rest(&mut self, m: u64)
        ensures { On (PutsTree (bin rem var (int m))) self.old self.new }
    {
        self.put(b'(');
        self.put(b'n');
        self.put(b'%');
        self.put_number(m);
        self.put(b')');
    }

    // Puts an operator, by its number.
    #[tactic(auto, using(crate::proofs::Laid::none_put, crate::proofs::Laid::one_put))]
    fn put_sign(&mut self, op: u8)
        requires { self.old.end ≤ 513 }
        ensures { On (Puts (sign_by (op_of op))) self.old self.new }
    {
        for &b in sign(op) {
            self.put(b);
        }
    }

    // Puts an operator and the integer that is its last operand, and closes its bracket.
    fn put_value(&mut self, op: u8, v: u64)
        requires { self.old.end ≤ 513 }
        ensures { On (PutsValue op v) self.old self.new }
    {
        self.put_sign(op);
        self.put_number(v);
        self.put(b')');
    }
}

// Puts the text of a node that has no operand.
#[tactic(auto, using(crate::proofs::Laid::room))]
fn put_leaf(nodes: &Nodes<'_>, p: usize, text: &mut Text)
    requires sound { Sound (pool_in nodes.now) p }
    requires leaf { get_or nodes.now.codes.now p 0 < nay_node }
    ensures { On (PutsTree (tree_of (pool_in nodes.now) p)) text.old text.new }
{
    let code = nodes.codes[p];
    if code == node::N {
        text.put(b'n');
        return;
    }
    let v = nodes.values[p];
    if code < node::N_OP {
        text.put_number(v);
        return;
    }
    text.put(b'(');
    if code < node::REST_OP {
        text.put(b'n');
        text.put_value(code - node::N_OP, v);
        return;
    }
    text.put_rest(nodes.field(p, 0) as u64);
    text.put_value(code - node::REST_OP, v);
}

// Puts what stands after the node before, in the text of the node at a place that has operands.
#[tactic(auto, using(crate::proofs::Texts::tail_not, crate::proofs::Texts::tail_value, crate::proofs::Texts::tail_last))]
fn put_tail(nodes: &Nodes<'_>, p: usize, text: &mut Text)
    requires sound { Sound (pool_in nodes.now) p }
    requires above { nay_node ≤ get_or nodes.now.codes.now p 0 }
    requires room { text.old.end ≤ 513 }
    ensures { On (PutsTail (pool_in nodes.now) p) text.old text.new }
{
    let code = nodes.codes[p];
    if code == node::NOT {
        text.put(b')');
        return;
    }
    if code < node::VALUE_OP {
        text.put(b'?');
        text.put_number(nodes.values[p]);
        text.put(b':');
        text.put_number(nodes.field(p, 0) as u64);
        text.put(b')');
        return;
    }
    if code < node::OP {
        text.put_value(code - node::VALUE_OP, nodes.values[p]);
        return;
    }
    text.put(b')');
}

// Puts what stands before it.
#[cycle(put_head_put_node)]
#[tactic(auto, using(crate::proofs::Laid::room, crate::proofs::Texts::head_not, crate::proofs::Texts::head_first))]
fn put_head(nodes: &Nodes<'_>, p: usize, text: &mut Text)
    requires sound { Sound (pool_in nodes.now) p }
    requires above { nay_node ≤ get_or nodes.now.codes.now p 0 }
    requires room { text.old.end ≤ 513 }
    ensures { On (PutsHead (pool_in nodes.now) p) text.old text.new }
{
    let code = nodes.codes[p];
    text.put(b'(');
    if code == node::NOT {
        text.put(b'!');
        return;
    }
    if code < node::OP {
        return;
    }
    put_node(nodes, nodes.place(p, 0), text);
    if code < node::CHOICE {
        text.put_sign(code - node::OP);
        return;
    }
    text.put(b'?');
    if code < node::TERNARY {
        text.put_number(nodes.values[p]);
        text.put(b':');
        return;
    }
    put_node(nodes, nodes.place(p, 1), text);
    text.put(b':');
}

// Puts the text of the tree at a place: down to the leaf that its last operands end in, in a loop, and up again. Where each stands in its
// parent's text is its parent's to know: after it comes a bracket, or also an operator.
//
// It takes a frame of the stack where a first or a second operand is put, as a rating does: 256 at most.
#[cycle(put_head_put_node)]
fn put_node(nodes: &Nodes<'_>, p: usize, text: &mut Text)
    requires sound { Sound (pool_in nodes.now) p }
    requires room { text.old.end ≤ 513 }
    ensures { On (PutsTree (tree_of (pool_in nodes.now) p)) text.old text.new }
{
    let base = base(nodes.codes, p, CODES);
    for q in (base + 1..p + 1).rev() {
        put_head(nodes, q, text);
    }
    put_leaf(nodes, base, text);
    for q in base + 1..p + 1 {
        put_tail(nodes, q, text);
    }
}

// Writes the text of a rule into a buffer, and tells its length. A refusal leaves the buffer as it was, and the bytes after the text stay.
pub fn write(rule: Rule<'_>, buffer: &mut [u8]) -> Result<usize, Unwritten>
    ensures answer { result ≡ writing_of (pool_in rule.entry.nodes)
        rule.entry.count rule.entry.root (length buffer.old) }
    ensures left { buffer.new ≡ left_by result
        (bracketed (tree_of (pool_in rule.entry.nodes) rule.entry.root)) buffer.old }
    ensures bounded { BoundedBy result (tree_of (pool_in rule.entry.nodes) rule.entry.root) }
{
    if !rules_tree::is_tree(rule.nodes.codes, rule.nodes.places, rule.count, rule.root) {
        return Err(Unwritten::NoTree);
    }
    let mut text = Text {
        bytes: [0; MOST],
        end: 0,
    };
    put_node(&rule.nodes, rule.root, &mut text);
    let n = text.end;
    let room = MOST.min(buffer.len());
    if room < n {
        return Err(Unwritten::TooLong);
    }
    buffer[..n].copy_from_slice(&text.bytes[..n]);
    Ok(n)
}
