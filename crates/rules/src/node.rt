// The codes of nodes, without a gap, as the table of specs/Pool.antt has them: v is a node's value, m its first field, x and y the nodes at
// the places that its fields name, b the node before it. To a code with _OP the number of an operator is added.
pub const N: u8 = 0;

// v
pub const INTEGER: u8 = 1;

// n op v
pub const N_OP: u8 = 2;

// n % m op v
pub const REST_OP: u8 = N_OP + OPERATORS;

// !b
pub const NOT: u8 = REST_OP + OPERATORS;

// b ? v : m
pub const PICK: u8 = NOT + 1;

// b op v
pub const VALUE_OP: u8 = PICK + 1;

// x op b
pub const OP: u8 = VALUE_OP + OPERATORS;

// x ? v : b
pub const CHOICE: u8 = OP + OPERATORS;

// x ? y : b
pub const TERNARY: u8 = CHOICE + 1;

// How many binary operators there are, and so codes of each group of theirs.
pub const OPERATORS: u8 = 13;

// Their numbers, with the names of the Rust's `Operator`. `operators` of specs/Operator.antt has them in this order. Codes and operators are numbers
// and no enums, since a host keeps them in its arrays and may alter them: what reads a code tests it by comparing it with the first of a group.
pub const EQUAL: u8 = 0;

pub const NOT_EQUAL: u8 = 1;

pub const GREATER_OR_EQUAL: u8 = 2;

pub const SMALLER_OR_EQUAL: u8 = 3;

pub const GREATER: u8 = 4;

pub const SMALLER: u8 = 5;

pub const AND: u8 = 6;

pub const OR: u8 = 7;

pub const MODULO: u8 = 8;

// These are C's, and no operators of the Rust's.
pub const DIVIDE: u8 = 9;

pub const PLUS: u8 = 10;

pub const MINUS: u8 = 11;

pub const TIMES: u8 = 12;
