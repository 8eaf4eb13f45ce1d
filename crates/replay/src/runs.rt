ghost use Rattle.std.specs.Prelude.{◌≡◌, ◌≤◌, length, Ok, IfOk};
ghost use Rattle.std.specs.List.{AllByRecursion};
ghost use Rattle.machine.specs.declared.answers.Answer.TheVariants.{Configured};
ghost use Rattle.machine.specs.declared.calls.Call.TheVariants.{Configure};
ghost use Rattle.machine.specs.Standard.{standard, standard_numbers};
ghost use Rattle.machine.specs.Machine.{call, fresh};
ghost use Rattle.machine.specs.State.{configured, put_up};
ghost use Rattle.replay.specs.Accounts.{IsOutcome};
ghost use Rattle.replay.specs.Fit.{Readable};
ghost use Rattle.replay.specs.Stages.{first_stamp};

use crate::accounts::{Records, note, record};
use crate::fates::Fallen;
use crate::stages::{Stage, Turn};
use board::Board;
use capture::Captured;
use machine::{Period, Report};
use policy::Policy;
use receiver::Receiver;
use ring::Ring;
use standard::SETTINGS;
use std::alloc::{AllocError, Global};

/// What a replay came to.
#[derive(Drop)]
pub(crate) struct Outcome<'a> {
    pub turns: u64,
    /// What the receiver told at the stop.
    pub report: Report,
    /// The fates that were decided, by the packets' numbers.
    pub fates: Vec<Option<Fallen>>,
    pub records: Records<'a>,
}

/// Replays packets on a new receiver.
pub(crate) fn run<'a, B: Board + Drop, P: Policy + Drop>(
    alloc: Global,
    board: B,
    policy: P,
    packets: &[Captured],
    slots: &'a mut [Period],
) -> Result<Outcome<'a>, AllocError>
    requires ready { call (P.meaning policy) (Configure standard_numbers) (put_up (B.bearers board)) ≡ (Ok Configured, configured standard (fresh (B.bearers board))) }
    requires readable { AllByRecursion (Readable (length (B.bearers board)) (first_stamp packets.now)) packets.now }
    requires few { length packets.now ≤ 1024 }
    requires slots { length slots.old ≡ 1000 }
    ensures value { IfOk result (λ o. IsOutcome (P.meaning policy) (B.bearers board) packets.now o) }
{
    let mut fates = vec![in alloc; None; packets.len()]?;
    let mut records = Ring::new(slots);
    let mut receiver = Receiver::new(board, policy);
    receiver.configure(SETTINGS).unwrap();
    let mut stage = Stage::start(receiver, packets);
    let mut turns = 0;
    while let Turn::Made(decision) = stage.turn() {
        turns += 1;
        let report = stage.tell();
        note(&mut fates, decision, report.closed);
        record(&mut records, report);
    }
    let report = stage.tell();
    stage.end();
    Ok(Outcome {
        turns,
        report,
        fates,
        records,
    })
}
