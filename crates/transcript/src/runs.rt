ghost use Rattle.std.specs.Prelude.{◌≡◌, false, true, map, IfOk, MatchOption, string_bytes};
ghost use Rattle.setup.specs.Setups.{batches_of, bearer_of, is_board};
ghost use Rattle.transcript.specs.Transcript.{Tells, answers, transcript_over};

use crate::failures::Failure;
use crate::lines::lines;
use crate::texts::calls_of;
use board::Board;
use conduct::conduct;
use machine::Call;
use policy::{Backlog, Policy};
use setup::{BearerSetup, NO_PACKETS, PolicySetup, fixed, put_up};
use std::alloc::{AllocError, Global};

/// Makes the calls on a new receiver over a board and a policy, and tells of each in a line. Receipts that are held
/// in the end are swept.
fn told<B: Board + Drop, P: Policy + Drop>(
    alloc: Global,
    board: B,
    policy: P,
    calls: &[Call],
) -> Result<String, AllocError>
    ensures value { IfOk result (λ text. string_bytes text ≡ answers (P.meaning policy) (B.bearers board) calls.now) }
{
    let Ok(conducted) = conduct(alloc, board, policy, calls) else {
        return Err(AllocError);
    };
    let swept = conducted.sweep().unwrap();
    lines(alloc, &swept.replies)
}

/// As `told`, by a policy of any kind.
pub(crate) fn told_by<B: Board + Drop>(
    alloc: Global,
    board: B,
    policy: PolicySetup,
    calls: &[Call],
) -> Result<String, AllocError>
    ensures value { IfOk result (λ text. string_bytes text ≡ answers (batches_of policy) (B.bearers board) calls.now) }
{
    match policy {
        PolicySetup::Fixed { figure } => told(alloc, board, fixed(figure), calls),
        PolicySetup::Backlog => told(alloc, board, Backlog, calls),
    }
}

/// Makes the calls of a text, which has nothing else, on a new receiver over a board and a policy, and answers a line
/// for each.
pub fn run_over<B: Board + Drop, P: Policy + Drop>(
    alloc: Global,
    board: B,
    policy: P,
    text: &[u8],
) -> Result<String, Failure>
    ensures value { Tells string_bytes (transcript_over (P.meaning policy) (B.bearers board) text.now) result }
{
    let calls = calls_of(alloc, text)?;
    let text = told(alloc, board, policy, &calls)?;
    Ok(text)
}

/// As `run_over`, by a policy of any kind.
fn run_by<B: Board + Drop>(
    alloc: Global,
    board: B,
    policy: PolicySetup,
    text: &[u8],
) -> Result<String, Failure>
    ensures value { Tells string_bytes (transcript_over (batches_of policy) (B.bearers board) text.now) result }
{
    let calls = calls_of(alloc, text)?;
    let text = told_by(alloc, board, policy, &calls)?;
    Ok(text)
}

/// As `run_over`, on bearers and by a policy of any kinds; or nothing, where the bearers are none or too many for a
/// board.
pub fn run_on(
    alloc: Global,
    bearers: &[BearerSetup],
    policy: PolicySetup,
    text: &[u8],
) -> Option<Result<String, Failure>>
    ensures value { MatchOption result (is_board bearers.now ≡ false) (λ r. (is_board bearers.now ≡ true) × Tells string_bytes (transcript_over (batches_of policy) (map bearer_of bearers.now) text.now) r) }
{
    let mut slots = NO_PACKETS;
    let board = put_up(bearers, &mut slots)?;
    Some(run_by(alloc, board, policy, text))
}
