ghost use Rattle.std.specs.Prelude.{◌≡◌, IfOk};
ghost use Rattle.capture.specs.Captures.{meaning};
ghost use Rattle.report.specs.Report.{Reports};

use crate::reports::{Report, Table};
use capture::ReadError;
use listing::refusal_row;
use replay::tables;
use std::alloc::{AllocError, Global};

/// Replays a capture, and answers what is printed of it.
#[tactic(auto, using(crate::proofs::Reported::reported))]
pub fn report(alloc: Global, bytes: &[u8], table: Table) -> Result<Report, AllocError>
    ensures value { IfOk result (λ r. Reports (meaning 3 bytes.now) table r) }
{
    // No `?`: a refusal is a report too, and only want of memory ends without one.
    match tables(alloc, bytes) {
        Ok(tables) => Ok(Report {
            outcome: Ok(tables.figures),
            text: table.text_in(tables),
        }),
        Err(ReadError::Refused(refusal)) => Ok(Report {
            outcome: Err(refusal),
            text: refusal_row(alloc, refusal)?,
        }),
        Err(ReadError::Memory) => Err(AllocError),
    }
}
