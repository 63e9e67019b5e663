// The head of a catalog's file: the byte order, how many entries there are, and where the two tables lie. From parser.rs:
// `get_read_u32_fn`, and what `parse_catalog` reads before its loop.
#![tactic(auto)]

ghost use Rattle.std.specs.Prelude.{◌≡◌, ◌≤◌, Some, length};
ghost use Rattle.container_head.specs.Head.{order_of, tables_of, head_of};

use container_layout::{Tables, read_u32, wide};
use refusal::Error;

// The number that an MO file begins with, in the byte order of the machine that wrote it.
const MAGIC: u32 = 0x950412de;

// Whether the file is big endian, by the byte order in which it begins with the magic.
fn get_read_u32(file: &[u8]) -> Option<bool>
    requires { 28 ≤ length file.now }
    ensures { result ≡ order_of file.now }
{
    if read_u32(file, 0, false) == MAGIC {
        return Some(false);
    }
    if read_u32(file, 0, true) == MAGIC {
        return Some(true);
    }
    None
}

// Count and tables; bytes 4..8, the revision, and 20..28, the hash table's, are ignored.
fn parse_tables(file: &[u8], big: bool) -> Result<Tables, Error>
    requires { 28 ≤ length file.now }
    ensures { result ≡ tables_of file.now (Some big) }
{
    let count = read_u32(file, 8, big);
    let originals = read_u32(file, 12, big);
    let translations = read_u32(file, 16, big);
    if file.len() < wide(originals) {
        return Err(Error::Eof);
    }
    if file.len() < wide(translations) {
        return Err(Error::Eof);
    }
    Ok(Tables {
        length: file.len(),
        big,
        count,
        originals,
        translations,
    })
}

// Byte order, count and tables, or why there are none.
#[tactic(auto, using(crate::proofs::Heads::too_short))]
pub fn parse_head(file: &[u8]) -> Result<Tables, Error>
    ensures { result ≡ head_of file.now }
{
    if file.len() < 28 {
        return Err(Error::Eof);
    }
    let big = get_read_u32(file).ok_or(Error::BadMagic)?;
    parse_tables(file, big)
}
