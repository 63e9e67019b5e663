// Writes how many entries the catalog on standard input has, and the range of its rule.
#![tactic(auto)]

use std::io;

fn main(rt: HostRuntime) -> io::Result<()> {
    mo_report::run(&mut rt.reader(), &mut io::writer(&rt))
}
