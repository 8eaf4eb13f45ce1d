ghost use Rattle.std.specs.Prelude.{string_bytes};
ghost use Rattle.transcript.specs.Transcript.{Tells, transcript};

use crate::failures::Failure;
use crate::runs::told_by;
use crate::texts::script_of;
use setup::{NO_PACKETS, PolicySetup, put_up};
use standard::{FIGURE, Slots, board};
use std::alloc::Global;

/// The policy of the standard receiver.
const STANDARD_POLICY: PolicySetup = PolicySetup::Fixed {
    figure: FIGURE as u64,
};

/// Makes the calls of a text on a new receiver, over the board and the policy that it says, and answers a line for each.
/// Where it says none, they are those of the standard receiver.
pub fn run(alloc: Global, text: &[u8]) -> Result<String, Failure>
    ensures value { Tells string_bytes (transcript text.now) result }
{
    let script = script_of(alloc, text)?;
    let policy = script.policy.unwrap_or(STANDARD_POLICY);
    if script.bearers.is_empty() {
        let mut slots = Slots::EMPTY;
        let text = told_by(alloc, board(&mut slots), policy, &script.calls)?;
        return Ok(text);
    }
    let mut slots = NO_PACKETS;
    let board = put_up(&script.bearers, &mut slots).unwrap();
    let text = told_by(alloc, board, policy, &script.calls)?;
    Ok(text)
}
