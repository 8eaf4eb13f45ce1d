//! What is printed of a capture: the table of its packets as the replay will see them, or the refusal.
#![tactic(auto)]

ghost use Rattle.std.specs.Prelude.{◌≡◌, IfOk};
ghost use Rattle.capture.specs.Captures.{meaning};
ghost use Rattle.listing.specs.Listing.{printed, counted};

use capture::{ReadError, Refusal, read};
use rows::records_table;
use std::alloc::{AllocError, Global};

mod rows;
#[cfg(test)]
mod tests;

pub use rows::refusal_row;

/// How many bearers the replay's board shows.
const SHOWN: usize = 3;

/// The text to print, and what it tells of: how many packets, or the refusal.
#[derive(Drop)]
pub struct Listing {
    pub outcome: Result<usize, Refusal>,
    /// In bytes, as `table` appends its rows.
    pub text: Vec<u8>,
}

/// What a capture holds, for the replay's board.
pub fn list(alloc: Global, bytes: &[u8]) -> Result<Listing, AllocError>
    ensures text { IfOk result (λ l. l.text.items ≡ printed (meaning 3 bytes.now)) }
    ensures outcome { IfOk result (λ l. l.outcome ≡ counted (meaning 3 bytes.now)) }
{
    // No `?`: a refusal is a listing too, and only want of memory ends without one.
    match read(alloc, bytes, SHOWN) {
        Ok(packets) => Ok(Listing {
            outcome: Ok(packets.len()),
            text: records_table(alloc, &packets)?,
        }),
        Err(ReadError::Refused(refusal)) => Ok(Listing {
            outcome: Err(refusal),
            text: refusal_row(alloc, refusal)?,
        }),
        Err(ReadError::Memory) => Err(AllocError),
    }
}
