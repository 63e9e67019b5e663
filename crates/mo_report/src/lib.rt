// What the program `mo` says of a catalog: how many entries it has and the range of its rule, or the refusal. A library, so that another
// program can run it on files of its own.
#![tactic(auto)]

ghost use Rattle.std.specs.Prelude.{◌≡◌};
ghost use Rattle.mo_report.specs.Report.{report_of};

use container::Options;
use reading_rule::Reading;
use refusal::Refusal;
use rules::{NoTree, Nodes, Rule};
use std::io::{Read, Write};
use std::{fmt, io};

// How many entries a catalog has, and the range of its rule.
#[derive(Clone, Copy)]
pub struct Said {
    pub entries: u32,
    pub range: Result<Option<(u64, u64)>, NoTree>,
}

// A line for each. A rule that is no tree, as no loaded one is, has no range either.
impl fmt::Display for Said {
    ghost use Rattle.std.specs.Prelude.{Some};
    ghost use Rattle.mo_report.specs.Report.{said_text};

    ghost output = { λ said. Some (said_text said) };

    fn fmt<W: fmt::Write>(&self, f: &mut fmt::Formatter<W>) -> fmt::Result {
        let entries = self.entries;
        match self.range {
            Ok(Some((lowest, highest))) => write!(f, "entries {entries}\nrule {lowest} {highest}"),
            _ => write!(f, "entries {entries}\nrule unrated"),
        }
    }
}

// What is said of a file, or why and where it is refused: no rule and no UTF-8 is forced, and rules are read the Shipped way.
pub fn report(file: &[u8]) -> Result<Said, Refusal>
    ensures { result ≡ report_of file.now }
{
    let options = Options {
        forced: false,
        reading: Reading::Shipped,
        utf8: false,
        fit: false,
    };
    let mut codes = [0u8; 512];
    let mut places = [0u16; 1024];
    let mut values = [0u64; 512];
    let loading = container::load_into(file, file, options, &mut codes, &mut places, &mut values);
    loading.outcome?;
    let nodes = Nodes {
        codes: &codes,
        places: &places,
        values: &values,
    };
    let range = rules_range::rating_of(Rule {
        nodes,
        count: loading.nodes,
        root: loading.nodes - 1,
    });
    Ok(Said {
        entries: loading.tables.count,
        range,
    })
}

fn show<W: Write>(out: &mut W, said: Result<Said, Refusal>) -> io::Result<()> {
    match said {
        Ok(said) => writeln!(out, "{said}"),
        Err(refusal) => writeln!(out, "refused {refusal}"),
    }
}

// Reads a file of at most 65,536 bytes, and writes what is said of it. What a program reads and writes no contract says.
pub fn run<R: Read, W: Write>(from: &mut R, out: &mut W) -> io::Result<()> {
    let mut buffer = [0u8; 65536];
    let n = stream::read_full(from, &mut buffer)?;
    let mut more = [0u8; 1];
    let left = stream::read_full(from, &mut more)?;
    if left != 0 {
        return writeln!(out, "too large");
    }
    show(out, report(&buffer[..n]))
}
