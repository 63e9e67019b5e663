// A plural rule as nodes in arrays of numbers. A port of plurals.rs: `Ast`, `Operator`; `Box<Ast>` is a place in the arrays.
// The crate `rules_tree` tests that they are a tree, `rules_value` has its value at a count, `rules_range` its range, and `rules_pack` packs
// them; the reasons for which they give no answer are declared here, since the definitions name them.
#![tactic(auto)]

ghost use Rattle.std.specs.Prelude.{◌≡◌, ◌+◌, ◌<◌, ◌*◌, get_or};
ghost use Rattle.rules.specs.Tree.{default_tree};
ghost use Rattle.rules.specs.Lent.{Keeps, pool_left};
ghost use Rattle.rules.specs.Pool.{pool_in};
ghost use Rattle.rules.specs.Store.{push};
ghost use Rattle.rules.specs.Pack.{packed_size, packed};

// The codes of nodes.
pub mod node;

// The most nodes of a rule.
pub const MOST: usize = 512;

// The nodes of a rule in arrays: a code at each place, two fields, and a value.
#[derive(Clone, Copy)]
pub struct Nodes<'a> {
    pub codes: &'a [u8; 512],
    pub places: &'a [u16; 1024],
    pub values: &'a [u64; 512],
}

impl<'a> Nodes<'a> {
    // The number in field j of the node at a place.
    pub fn field(self, at: usize, j: usize) -> u16
        requires { (at < 512) × (j < 2) }
        ensures { result ≡ get_or self.entry.places.now (2 * at + j) 0 }
    {
        field(self.places, at, j)
    }

    // The same as a place.
    pub fn place(self, at: usize, j: usize) -> usize
        requires { (at < 512) × (j < 2) }
        ensures { result ≡ get_or self.entry.places.now (2 * at + j) 0 }
    {
        place(self.places, at, j)
    }
}

// The number in field j of the node at a place. The codes and the values are not asked for.
pub fn field(places: &[u16; 1024], at: usize, j: usize) -> u16
    requires { (at < 512) × (j < 2) }
    ensures { result ≡ get_or places.now (2 * at + j) 0 }
{
    places[2 * at + j]
}

// The same as a place.
pub fn place(places: &[u16; 1024], at: usize, j: usize) -> usize
    requires { (at < 512) × (j < 2) }
    ensures { result ≡ get_or places.now (2 * at + j) 0 }
{
    usize::from(field(places, at, j))
}

// A rule of a catalog: nodes, how many of them are the rule's, and the place of its root. `rules_tree::is_tree` tests whether they are a tree.
#[derive(Clone, Copy)]
pub struct Rule<'a> {
    pub nodes: Nodes<'a>,
    pub count: usize,
    pub root: usize,
}

// Why a rule has no value at a count: a divisor is zero, or its nodes are no tree.
#[derive(Clone, Copy)]
pub enum NoForm {
    ZeroModulus,
    NoTree,
}

// Why a rule has no range: its nodes are no tree.
#[derive(Clone, Copy)]
pub struct NoTree;

// Whether a tree is n, n % m with m below 65536, or another.
#[derive(Clone, Copy)]
pub enum Left {
    Count,
    Rest(u16),
    Other,
}

// Arrays that a caller lends for the nodes of a rule. `Keeps` says that a call that was handed them leaves the very same arrays lent.
#[derive(Drop)]
pub struct Lent<'a> {
    pub codes: &'a mut [u8; 512],
    pub places: &'a mut [u16; 1024],
    pub values: &'a mut [u64; 512],
}

impl Lent<'_> {
    // Puts a node at place k: its code, its fields and its value.
    pub fn put(&mut self, k: usize, code: u8, x: u16, y: u16, value: u64)
        requires { k < 512 }
        ensures lent { Keeps self.old self.new }
        ensures put { pool_left self.new ≡ push (pool_left self.old) k code x y value }
    {
        self.codes[k] = code;
        self.places[2 * k] = x;
        self.places[2 * k + 1] = y;
        self.values[k] = value;
    }

    // The rule of a catalog without one, n != 1, alone in the arrays; how many nodes it has.
    pub fn put_default(&mut self) -> usize
        ensures lent { Keeps self.old self.new }
        ensures nodes { pool_left self.new ≡ packed default_tree }
        ensures count { result ≡ packed_size default_tree }
    {
        *self.codes = [0u8; 512];
        *self.places = [0u16; 1024];
        *self.values = [0u64; 512];
        self.put(0, node::N_OP + node::NOT_EQUAL, 0, 0, 1);
        1
    }

    // What the arrays hold.
    pub fn nodes(&self) -> Nodes<'_>
        ensures { pool_in result ≡ pool_left self.now }
    {
        Nodes {
            codes: self.codes,
            places: self.places,
            values: self.values,
        }
    }
}
