// What `mo` does on each file of data/: one without a byte, one of as many bytes as it reads, one of a byte more, one whose rule has no range,
// and a refused one at least for each row of SPEC 2.1 that it can give.
#![tactic(auto)]

use std::rt::Files;
use std::{fs, io};

fn show(rt: &(impl Files + Print), name: &str) -> io::Result<()> {
    println!(rt; "{name}:")?;
    match fs::open(rt, name) {
        Ok(mut file) => mo_report::run(&mut file, &mut io::writer(rt)),
        Err(_) => println!(rt; "missing"),
    }
}

const FILES: [&str; 14] = [
    "empty.mo",
    "full.mo",
    "large.mo",
    "unrated.mo",
    "magic.mo",
    "offset.mo",
    "original.mo",
    "misplaced.mo",
    "translation.mo",
    "count.mo",
    "colon.mo",
    "refused.mo",
    "rule.mo",
    "long.mo",
];

fn main(rt: HostRuntime) -> io::Result<()> {
    for name in FILES {
        show(&rt, name)?;
    }
    Ok(())
}
