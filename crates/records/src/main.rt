//! Prints, as a table, every packet of the capture on standard input, or why the capture is refused.
#![tactic(auto)]

use capture::ENOUGH;
use listing::list;
use std::io;
use std::io::{Read, Write};

fn main(rt: HostRuntime) -> io::Result<()> {
    let mut capture = Vec::new(rt.alloc());
    rt.stdin().take(ENOUGH).read_to_end(&mut capture)?;
    let listing = list(rt.alloc(), &capture)?;
    rt.stdout().write_all(&listing.text)?;
    match listing.outcome {
        Ok(1) => eprintln!(rt; "records: 1 packet"),
        Ok(count) => eprintln!(rt; "records: {count} packets"),
        Err(refusal) => {
            let number = refusal.number();
            let place = refusal.place();
            eprintln!(rt; "records: the capture is refused with {number}, place {place}: {refusal}")
        }
    }
}
