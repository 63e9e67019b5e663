// What loading a file would cost, told from its tables alone, so that a host need not begin a load that it will not pay for.
#![tactic(auto)]

ghost use Rattle.std.specs.Prelude.{◌≡◌};
ghost use Rattle.container_cost.specs.Cost.{lengths, capped, cost};
ghost use Rattle.container_cost.specs.Private.{Cells};

use container_layout::{read_u32, wide};

// How many cells of a table lie in the file, of those of the first `count` indices.
fn cells(file: &[u8], table: u32, count: u32) -> usize
    ensures { Cells file.now table count result }
{
    let most = file.len().saturating_sub(wide(table)) / 8;
    most.min(wide(count))
}

// The lengths that a table states.
fn table_lengths(file: &[u8], big: bool, table: u32, count: u32) -> u64
    ensures { result ≡ capped (lengths big file.now table count) }
{
    let n = cells(file, table, count);
    let mut sum: u64 = 0;
    for i in 0..n {
        sum = sum.saturating_add(read_u32(file, wide(table) + 8 * i, big) as u64);
    }
    sum
}

// The sum of the lengths that the tables state, 0 where the file has no head. It is linear in the file for any bytes.
pub fn cost(file: &[u8]) -> u64
    ensures { result ≡ cost file.now }
{
    let Ok(t) = container_head::parse_head(file) else {
        return 0;
    };
    let originals = table_lengths(file, t.big, t.originals, t.count);
    let translations = table_lengths(file, t.big, t.translations, t.count);
    originals.saturating_add(translations)
}
