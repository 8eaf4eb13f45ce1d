ghost use Rattle.std.specs.Prelude.{◌≡◌, Ok, Err, IfErr, OnOk, IsOk};
ghost use Rattle.capture.specs.Answers.{IsAnswerTo};
ghost use Rattle.capture.specs.Captures.{meaning, rest};
ghost use Rattle.capture.specs.Writing.{File, KeepsRules, file_bytes, packets};

use crate::packets::Captured;
use crate::readers::Reader;
use crate::refusals::{ReadError, Refusal};
use std::alloc::Global;

/// The packets of a capture, in file order, for a board that shows so many bearers. It answers what the bytes mean,
/// and so, of a file that was written by the format's rules, the packets that were written. A refused capture is
/// answered by its refusal even where memory runs out.
pub fn read(alloc: Global, bytes: &[u8], shown: usize) -> Result<Vec<Captured>, ReadError>
    ensures value { IsAnswerTo (meaning shown bytes.now) result }
    ensures refused { IfErr (meaning shown bytes.now) (λ f. result ≡ Err (ReadError.Refused f)) }
    ensures faithful { (f : File) → KeepsRules shown f → bytes.now ≡ file_bytes f → IsAnswerTo (Ok (packets f)) result }
{
    let mut reader = Reader::open(bytes, shown)?;
    let mut packets = Vec::new(alloc);
    while let Some(packet) = reader.next()? {
        if packets.push(packet).is_err() {
            pass_over(reader)?;
            return Err(ReadError::Memory);
        }
    }
    Ok(packets)
}

/// Reads on to the end of a capture, and keeps none of its packets: only a refusal is told.
fn pass_over(mut reader: Reader<'_>) -> Result<(), Refusal>
    ensures refused { IfErr result (λ f. rest reader.entry ≡ Err f) }
    ensures passed { OnOk result (IsOk (rest reader.entry)) }
{
    while let Some(_packet) = reader.next()? {}
    Ok(())
}
