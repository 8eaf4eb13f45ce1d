//! Prints, as a table, what each period of a capture's replay offered the application, or why the capture is refused.
#![tactic(auto)]

use report::{ENOUGH, Table, report, words};
use std::io;
use std::io::{Read, Write};

fn main(rt: HostRuntime) -> io::Result<()> {
    let mut capture = Vec::new(rt.alloc());
    rt.stdin().take(ENOUGH).read_to_end(&mut capture)?;
    let report = report(rt.alloc(), &capture, Table::Periods)?;
    rt.stdout().write_all(&report.text)?;
    let words = words(rt.alloc(), report.outcome)?;
    eprintln!(rt; "periods: {words}")
}
