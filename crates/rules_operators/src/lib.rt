// A rule's operators on numbers. A port of plurals.rs: `resolve`, the arms of `Ast::Op`.
#![tactic(auto)]

ghost use Rattle.std.specs.Prelude.{◌≡◌};
ghost use Rattle.rules.specs.Value.{truth};
ghost use Rattle.rules.specs.Operator.{op_of, Named};
ghost use Rattle.rules_operators.specs.Operator.{settled_by, Compares, Calculates, Applies};

use rules::node;

// A truth as a number.
pub fn truth(b: bool) -> u64
    ensures { result ≡ truth b }
{
    u64::from(b)
}

// Whether the left operand alone settles a binary operator.
pub fn settles(op: u8, x: u64) -> bool
    ensures { result ≡ settled_by (op_of op) x }
{
    match op {
        node::AND => x == 0,
        node::OR => x != 0,
        _ => false,
    }
}

// A comparison of two numbers.
fn compares(op: u8, x: u64, y: u64) -> bool
    ensures { Compares op x y result }
{
    match op {
        node::NOT_EQUAL => x != y,
        node::GREATER_OR_EQUAL => x >= y,
        node::SMALLER_OR_EQUAL => x <= y,
        node::GREATER => x > y,
        node::SMALLER => x < y,
        _ => x == y,
    }
}

// A sum, a difference or a product modulo 2^64.
fn calculates(op: u8, x: u64, y: u64) -> u64
    ensures { Calculates op x y result }
{
    match op {
        node::PLUS => x.wrapping_add(y),
        node::MINUS => x.wrapping_sub(y),
        _ => x.wrapping_mul(y),
    }
}

// A binary operator of the table on two numbers. A remainder or a quotient by zero is told by the flag, and the number is 0 and of no use then.
// A flag beside the number and no `Option`, which made the walk of `rules_value::eval` slower by a tenth to a fifth.
pub fn apply(op: u8, x: u64, y: u64, zero: &mut bool) -> u64
    requires { Named op }
    ensures { Applies op x y zero.old zero.new result }
{
    if op < node::AND {
        return truth(compares(op, x, y));
    }
    if op == node::AND {
        if x == 0 {
            return 0;
        }
        return truth(y != 0);
    }
    if op == node::OR {
        if x == 0 {
            return truth(y != 0);
        }
        return 1;
    }
    if node::PLUS <= op {
        return calculates(op, x, y);
    }
    if y == 0 {
        *zero = true;
        return 0;
    }
    if op == node::MODULO {
        return x % y;
    }
    x / y
}
