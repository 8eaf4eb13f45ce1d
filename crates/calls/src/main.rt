//! Makes the calls on standard input on a new receiver, over the board and the policy that stand before them or those of
//! the standard receiver, and prints a line for each; or prints, on standard error, why none was made.
#![tactic(auto)]

use std::io;
use std::io::{Read, Write};
use std::process::ExitCode;
use transcript::{LONGEST, reason, run};

/// One byte more than a text may have: it is refused by then, whatever follows.
const ENOUGH: u64 = LONGEST as u64 + 1;

// By the rules. With fewer, a longer text would pass for one that ends there.
const _: () = prove!(ENOUGH == 1_048_577);

fn main(rt: HostRuntime) -> io::Result<ExitCode> {
    let mut text = Vec::new(rt.alloc());
    rt.stdin().take(ENOUGH).read_to_end(&mut text)?;
    match run(rt.alloc(), &text) {
        Ok(answers) => {
            rt.stdout().write_all(answers.as_bytes())?;
            Ok(ExitCode::SUCCESS)
        }
        Err(failure) => {
            let reason = reason(rt.alloc(), failure)?;
            eprintln!(rt; "{reason}")?;
            Ok(ExitCode::FAILURE)
        }
    }
}
