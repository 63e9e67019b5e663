// A plural rule from its text, in the reading that the caller chooses, with the refusals that are common to both. A port of plurals.rs,
// `Ast::parse`, as its callers use it; the packed nodes go into arrays that the caller lends.
#![tactic(auto)]

ghost use Rattle.std.specs.Prelude.{◌≡◌, ◌≤◌, length};
ghost use Rattle.text.specs.Bytes.{all};
ghost use Rattle.rules.specs.Lent.{Keeps, pool_left};
ghost use Rattle.rules.specs.Reads.{Answered};
ghost use Rattle.reading_rule.specs.Plurals.{norule, read_as, made, is_ascii, parsed, Parses};

use refusal::{Error, Refusal, Where};
use rules::Lent;
use text_trim::Set;

// The reading of rules: plurals.rs as it stands, or C's grammar.
#[derive(Clone, Copy)]
pub enum Reading {
    Shipped,
    Standard,
}

// The refusal, beside which the default rule stands in the arrays.
pub fn refuse(refusal: Refusal, lent: &mut Lent<'_>) -> Result<usize, Refusal>
    ensures lent { Keeps lent.old lent.new }
    ensures parsed { Parses (norule refusal) (pool_left lent.new) result }
{
    lent.put_default();
    Err(refusal)
}

// Whether every byte is below 128.
fn ascii(s: &[u8]) -> bool
    ensures { result ≡ all is_ascii s.now }
{
    s.iter().all(|&b| b < 128)
}

// Hands the text and the arrays to the chosen reader.
fn read(s: &[u8], reading: Reading, lent: &mut Lent<'_>) -> Option<usize>
    requires { length s.now ≤ 512 }
    ensures lent { Keeps lent.old lent.new }
    ensures read { Answered (read_as reading s.now) s.now
        (pool_left lent.old) (pool_left lent.new) result }
{
    match reading {
        Reading::Shipped => reading_shipped::shipped(s, lent),
        Reading::Standard => reading_standard::standard(s, lent),
    }
}

// The rule of a text that passed the tests: its reader leaves a node for each n, integer and operator, and they are packed.
fn rule_of(s: &[u8], place: Where, reading: Reading, lent: &mut Lent<'_>) -> Result<usize, Refusal>
    requires { length s.now ≤ 512 }
    ensures lent { Keeps lent.old lent.new }
    ensures parsed { Parses (made place (read_as reading s.now)) (pool_left lent.new) result }
{
    let mut unpacked = Lent {
        codes: &mut [0u8; 512],
        places: &mut [0u16; 1024],
        values: &mut [0u64; 512],
    };
    let Some(count) = read(s, reading, &mut unpacked) else {
        return refuse(refusal::at(place, Error::PluralParsing), lent); // no reading
    };
    Ok(rules_pack::pack(unpacked.nodes(), count - 1, lent))
}

// The rule of a text, trimmed of white space, which may be wide: how many nodes it has in the arrays. One of over 512 bytes is refused as too
// long, whatever its bytes. Where the text stands is for the refusal, which leaves the default rule in the arrays.
pub fn parse(
    text: &[u8],
    place: Where,
    reading: Reading,
    lent: &mut Lent<'_>,
) -> Result<usize, Refusal>
    ensures lent { Keeps lent.old lent.new }
    ensures parsed { Parses (parsed place reading text.now) (pool_left lent.new) result }
{
    let s = text_trim::trim(text, Set::WhiteSpace);
    let long = rules::MOST < s.len();
    if long {
        return refuse(refusal::at(place, Error::RuleTooLong), lent);
    }
    if !ascii(s) {
        return refuse(refusal::at(place, Error::PluralParsing), lent); // a byte of 128 or more
    }
    rule_of(s, place, reading, lent)
}
