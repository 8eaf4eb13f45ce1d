//! Prints, as a table, what became of each packet of the capture on standard input, or why the capture is refused.
#![tactic(auto)]

use report::{ENOUGH, Table, report, words};
use std::io;
use std::io::{Read, Write};

fn main(rt: HostRuntime) -> io::Result<()> {
    let mut capture = Vec::new(rt.alloc());
    rt.stdin().take(ENOUGH).read_to_end(&mut capture)?;
    let report = report(rt.alloc(), &capture, Table::Packets)?;
    rt.stdout().write_all(&report.text)?;
    let words = words(rt.alloc(), report.outcome)?;
    eprintln!(rt; "packets: {words}")
}
