// Prints which forms a plural rule names over a span of counts, and how often. On standard input: the rule, in the Standard reading, the first
// count and the last, each on a line of its own.
#![tactic(auto)]

use reading_rule::Reading;
use refusal::Where;
use rules::{Lent, Rule};
use rules_span::LINES;
use std::io;
use std::io::Write;

fn refuse<W: Write>(out: &mut W, number: u32) -> io::Result<()> {
    writeln!(out, "refused {number}")
}

// A line for each form, those of which no count has any too, then the forms above and the zero divisors.
fn show<W: Write>(out: &mut W, figures: &[u64; LINES]) -> io::Result<()> {
    for (form, figure) in figures.iter().enumerate() {
        match form {
            16 => writeln!(out, "above {figure}")?,
            17 => writeln!(out, "zero {figure}")?,
            _ => writeln!(out, "{form} {figure}")?,
        }
    }
    Ok(())
}

fn count<W: Write>(out: &mut W, rule: &[u8], a: u64, b: u64) -> io::Result<()> {
    let mut codes = [0u8; 512];
    let mut places = [0u16; 1024];
    let mut values = [0u64; 512];
    let mut lent = Lent {
        codes: &mut codes,
        places: &mut places,
        values: &mut values,
    };
    let parsed = reading_rule::parse(rule, Where::Forced, Reading::Standard, &mut lent);
    let count = match parsed {
        Ok(count) => count,
        Err(refusal) => return refuse(out, refusal::number_of(refusal.error)),
    };
    let rule = Rule {
        nodes: lent.nodes(),
        count,
        root: count.saturating_sub(1),
    };
    let mut figures = [0; LINES];
    let counting = rules_span::tally(rule, a, b, &mut figures);
    match counting {
        Ok(()) => show(out, &figures),
        Err(_) => refuse(out, rules_span::number_of(counting)),
    }
}

fn run<W: Write>(out: &mut W, s: &[u8]) -> io::Result<()> {
    let mut lines = s.split(|b| *b == b'\n');
    let rule = lines.next().unwrap_or(b"");
    let Some(a) = text_digits::integer_of(lines.next().unwrap_or(b"")) else {
        return writeln!(out, "the second line is no count");
    };
    let Some(b) = text_digits::integer_of(lines.next().unwrap_or(b"")) else {
        return writeln!(out, "the third line is no count");
    };
    count(out, rule, a, b)
}

fn main(rt: HostRuntime) -> io::Result<()> {
    let mut buffer = [0u8; 65536];
    let n = stream::read_full(&mut rt.reader(), &mut buffer)?;
    run(&mut io::writer(&rt), &buffer[..n])
}
