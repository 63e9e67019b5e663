// Packs a rule: from the nodes that a reader leaves, which are each n, each integer and each operator, to fewer nodes that hold most of the
// leaves in themselves.
#![tactic(auto)]

ghost use Rattle.std.specs.Prelude.{◌≡◌, ◌+◌, ◌-◌, ◌≤◌, ◌<◌, get_or};
ghost use Rattle.rules.specs.Lent.{Keeps, pool_left};
ghost use Rattle.rules.specs.Pool.{pool_in, tree_of};
ghost use Rattle.rules.specs.Promise.{Plain};
ghost use Rattle.rules.specs.Pack.{left_of, small_by, packed_size, packed};
ghost use Rattle.rules_pack.specs.Private.{Packs, number_at};

use rules::{Left, Lent, Nodes, node};

// The integer at a place, if one is there.
fn number_of(nodes: &Nodes<'_>, at: usize) -> Option<u64>
    requires { at < 512 }
    ensures { result ≡ number_at (get_or nodes.now.codes.now at 0) (get_or nodes.now.values.now at 0) }
{
    if nodes.codes[at] == node::INTEGER {
        Some(nodes.values[at])
    } else {
        None
    }
}

// The same if a field can hold it.
fn small_of(nodes: &Nodes<'_>, at: usize) -> Option<u16>
    requires { at < 512 }
    ensures { result ≡ small_by (number_at (get_or nodes.now.codes.now at 0) (get_or nodes.now.values.now at 0)) }
{
    u16::try_from(number_of(nodes, at)?).ok()
}

// Whether n or n % m is at a place.
fn left_of(nodes: &Nodes<'_>, at: usize) -> Left
    requires { Plain (pool_in nodes.now) at }
    ensures { result ≡ left_of (tree_of (pool_in nodes.now) at) }
{
    let code = nodes.codes[at];
    if code == node::N {
        return Left::Count;
    }
    if code != node::OP + node::MODULO {
        return Left::Other;
    }
    let first = nodes.place(at, 0);
    if nodes.codes[first] != node::N {
        return Left::Other;
    }
    let Some(m) = small_of(nodes, at - 1) else {
        return Left::Other;
    };
    Left::Rest(m)
}

// The place of the node before this one, as a field has it.
fn before(k: usize) -> u16
    requires { (0 < k) × (k ≤ 512) }
    ensures { result ≡ k - 1 }
{
    (k - 1) as u16
}

// Packs the tree at a place, its nodes from k on, and tells the place after the last. The nodes are lent and not handed by value, which a frame of
// the recursion would copy.
fn pack_tree(nodes: &Nodes<'_>, at: usize, lent: &mut Lent<'_>, k: usize) -> usize
    requires plain { Plain (pool_in nodes.now) at }
    requires room { k + packed_size (tree_of (pool_in nodes.now) at) ≤ 512 }
    ensures lent { Keeps lent.old lent.new }
    ensures packed { Packs (tree_of (pool_in nodes.now) at) k
        (pool_left lent.old) (pool_left lent.new) result }
{
    let code = nodes.codes[at];
    if code == node::N {
        lent.put(k, node::N, 0, 0, 0);
        return k + 1;
    }
    if code == node::INTEGER {
        lent.put(k, node::INTEGER, 0, 0, nodes.values[at]);
        return k + 1;
    }
    if code == node::NOT {
        let n = pack_tree(nodes, at - 1, lent, k);
        lent.put(n, node::NOT, 0, 0, 0);
        return n + 1;
    }
    let first = nodes.place(at, 0);
    if code == node::TERNARY {
        let second = nodes.place(at, 1);
        let m = pack_tree(nodes, first, lent, k);
        let Some(v) = number_of(nodes, second) else {
            let l = pack_tree(nodes, second, lent, m);
            let n = pack_tree(nodes, at - 1, lent, l);
            lent.put(n, node::TERNARY, before(m), before(l), 0);
            return n + 1;
        };
        let Some(w) = small_of(nodes, at - 1) else {
            let n = pack_tree(nodes, at - 1, lent, m);
            lent.put(n, node::CHOICE, before(m), 0, v);
            return n + 1;
        };
        lent.put(m, node::PICK, w, 0, v);
        return m + 1;
    }
    let Some(v) = number_of(nodes, at - 1) else {
        let m = pack_tree(nodes, first, lent, k);
        let n = pack_tree(nodes, at - 1, lent, m);
        lent.put(n, code, before(m), 0, 0);
        return n + 1;
    };
    let op = code - node::OP;
    match left_of(nodes, first) {
        Left::Count => {
            lent.put(k, node::N_OP + op, 0, 0, v);
            k + 1
        }
        Left::Rest(m) => {
            lent.put(k, node::REST_OP + op, m, 0, v);
            k + 1
        }
        Left::Other => {
            let n = pack_tree(nodes, first, lent, k);
            lent.put(n, node::VALUE_OP + op, 0, 0, v);
            n + 1
        }
    }
}

// Packs the rule that a reader left, whose root is at a place; how many nodes it has then.
pub fn pack(nodes: Nodes<'_>, root: usize, lent: &mut Lent<'_>) -> usize
    requires plain { Plain (pool_in nodes) root }
    requires room { packed_size (tree_of (pool_in nodes) root) ≤ 512 }
    ensures lent { Keeps lent.old lent.new }
    ensures nodes { pool_left lent.new ≡
        packed (tree_of (pool_in nodes.entry) root) }
    ensures count { result ≡ packed_size (tree_of (pool_in nodes.entry) root) }
{
    *lent.codes = [0u8; 512];
    *lent.places = [0u16; 1024];
    *lent.values = [0u64; 512];
    pack_tree(&nodes, root, lent, 0)
}
