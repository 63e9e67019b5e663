// The levels of the Shipped reading: the first that cuts a text, and where. A port of plurals.rs: the patterns of `parse_and`, `parse_or`,
// .. `parse_mod`, in the order in which they are tried.
#![tactic(auto)]

ghost use Rattle.std.specs.Prelude.{◌≡◌, ◌<◌, length};
ghost use Rattle.reading_scan.specs.Scan.{found_at};
ghost use Rattle.reading_levels.specs.Levels.{row_at, row_in, code_of};

use rules::node;

// A level: the pattern that is sought, and the code of the node over what stands left and right of it.
#[derive(Clone, Copy)]
struct Row {
    pattern: &'static [u8],
    code: u8,
}

// The levels in their order.
const ROWS: [Row; 10] = [
    Row {
        pattern: b"&&",
        code: node::OP + node::AND,
    },
    Row {
        pattern: b"||",
        code: node::OP + node::OR,
    },
    Row {
        pattern: b"?",
        code: node::TERNARY,
    },
    Row {
        pattern: b">=",
        code: node::OP + node::GREATER_OR_EQUAL,
    },
    Row {
        pattern: b">",
        code: node::OP + node::GREATER,
    },
    Row {
        pattern: b"<=",
        code: node::OP + node::SMALLER_OR_EQUAL,
    },
    Row {
        pattern: b"<",
        code: node::OP + node::SMALLER,
    },
    Row {
        pattern: b"==",
        code: node::OP + node::EQUAL,
    },
    Row {
        pattern: b"!=",
        code: node::OP + node::NOT_EQUAL,
    },
    Row {
        pattern: b"%",
        code: node::OP + node::MODULO,
    },
];

// How many signs the pattern of a row has.
pub fn width_of(row: usize) -> usize
    requires { row < 10 }
    ensures { result ≡ length (row_at row).pattern }
{
    ROWS[row].pattern.len()
}

// The code of the node that a row makes.
pub fn code_of(row: usize) -> u8
    requires { row < 10 }
    ensures { result ≡ code_of (row_at row).kind }
{
    ROWS[row].code
}

// Where a row's pattern stands.
pub fn place_of(s: &[u8], row: usize) -> Option<usize>
    requires { row < 10 }
    ensures { result ≡ found_at (row_at row).pattern s.now }
{
    reading_scan::index_of(s, ROWS[row].pattern)
}

// The first row whose pattern stands in the text.
pub fn row_of(s: &[u8]) -> Option<usize>
    ensures { result ≡ row_in s.now }
{
    for row in 0..ROWS.len() {
        if place_of(s, row).is_some() {
            return Some(row);
        }
    }
    None
}
