// Why a call is refused: each name and its number, once. Every layer answers with these names, and a host is told the numbers. The names
// from Eof to UnknownEncoding are those of the Rust's `Error`. 9 is free: docs/SPEC.md says why.
#![tactic(auto)]

ghost use Rattle.std.specs.Prelude.{◌≡◌};
ghost use Rattle.refusal.specs.Numbers.{number_of, outcome_number};
ghost use Rattle.refusal.specs.Places.{at, index_of, side_of, outcome_place, side_number, named, index_or0};

use std::fmt;

#[derive(Clone, Copy)]
pub enum Error {
    Eof = 1,
    BadMagic = 2,
    DecodingError = 3,
    MalformedMetadata = 4,
    MisplacedMetadata = 5,
    PluralParsing = 6,
    UnknownEncoding = 7,
    RuleTooLong = 8,
    ZeroModulus = 10,
    BadRecord = 11,
    IndexRoom = 12,
    NotFit = 13,
    BadSpan = 17,
}

// The sides of an entry.
#[derive(Clone, Copy)]
pub enum Side {
    Original = 1,
    Translation = 2,
    Header = 3,
    Rule = 4,
}

// Its name.
impl fmt::Display for Side {
    ghost use Rattle.std.specs.Prelude.{Some};
    ghost use Rattle.refusal.specs.Texts.{side_text};

    ghost output = { λ side. Some (side_text side) };

    fn fmt<W: fmt::Write>(&self, f: &mut fmt::Formatter<W>) -> fmt::Result {
        match self {
            Side::Original => f.write_str("original"),
            Side::Translation => f.write_str("translation"),
            Side::Header => f.write_str("header"),
            Side::Rule => f.write_str("rule"),
        }
    }
}

// Where a load failed: in the file as a whole, in the forced rule, or on a side of an entry, by its index.
#[derive(Clone, Copy)]
pub enum Where {
    File,
    Forced,
    Entry(usize, Side),
}

// Why a load was refused, and where.
#[derive(Clone, Copy)]
pub struct Refusal {
    pub error: Error,
    pub place: Where,
}

// The number, and after it the entry's index and the side, as far as they are named.
impl fmt::Display for Refusal {
    ghost use Rattle.std.specs.Prelude.{Some};
    ghost use Rattle.refusal.specs.Texts.{refusal_text};

    ghost output = { λ refusal. Some (refusal_text refusal) };

    fn fmt<W: fmt::Write>(&self, f: &mut fmt::Formatter<W>) -> fmt::Result {
        let number = number_of(self.error);
        match self.place {
            Where::File => write!(f, "{number}"),
            Where::Forced => write!(f, "{number} rule"),
            Where::Entry(i, side) => write!(f, "{number} {i} {side}"),
        }
    }
}

pub fn number_of(e: Error) -> u32
    ensures { result ≡ number_of e }
{
    e as u32
}

pub fn at(place: Where, error: Error) -> Refusal
    ensures { result ≡ at place error }
{
    Refusal { error, place }
}

// Why alone, and where alone.
pub fn error_of(refusal: Refusal) -> Error
    ensures { result ≡ refusal.error }
{
    refusal.error
}

pub fn place_of(refusal: Refusal) -> Where
    ensures { result ≡ refusal.place }
{
    refusal.place
}

// How a load went, as a number: 0, or the number of the refusal.
pub fn outcome_number(outcome: Result<(), Refusal>) -> u32
    ensures { result ≡ outcome_number outcome }
{
    match outcome {
        Ok(()) => 0,
        Err(refusal) => number_of(error_of(refusal)),
    }
}

// Where; a load that is not refused names nothing.
pub fn outcome_place(outcome: Result<(), Refusal>) -> Where
    ensures { result ≡ outcome_place outcome }
{
    match outcome {
        Ok(()) => Where::File,
        Err(refusal) => place_of(refusal),
    }
}

// The side as a number, 0 where none is named.
pub fn side_number(place: Where) -> u32
    ensures { result ≡ side_number (side_of place) }
{
    match place {
        Where::File => 0,
        Where::Forced => Side::Rule as u32,
        Where::Entry(_, side) => side as u32,
    }
}

// Whether an entry is named, and which: entry 0 is one.
pub fn names_entry(place: Where) -> bool
    ensures { result ≡ named (index_of place) }
{
    matches!(place, Where::Entry(..))
}

pub fn entry_index(place: Where) -> usize
    ensures { result ≡ index_or0 (index_of place) }
{
    match place {
        Where::Entry(i, _) => i,
        _ => 0,
    }
}
