ghost use Rattle.std.specs.Prelude.{◌≡◌, ◌≤◌, length, Ok, IfOk, IfErr, OnOk, OnErr};
ghost use Rattle.std.specs.List.{AllByRecursion};
ghost use Rattle.capture.specs.Captures.{meaning};
ghost use Rattle.machine.specs.Standard.{standard_board, four};
ghost use Rattle.replay.specs.Answers.{Declines, EveryRun, Refuses, Replays, Tabled};
ghost use Rattle.replay.specs.ByLedger.{RowsByLedger};
ghost use Rattle.replay.specs.Fit.{Readable};
ghost use Rattle.machine.specs.Laws.{Lawful};
ghost use Rattle.replay.specs.Runs.{AllAccepted, OneRun, entries};
ghost use Rattle.replay.specs.Stages.{first_stamp};

use crate::accounts::in_the_end;
use crate::answers::{FateCounts, Figures, Replayed, Tables};
use crate::refusals::ReplayError;
use crate::runs::run;
use crate::stages::MOST_PERIODS;
use crate::texts::{packets_table, periods_table};
use capture::{Captured, ReadError, read};
use machine::Period;
use standard::{BEARERS, Slots, board, policy};
use std::alloc::{AllocError, Global};

/// What stands in a slot in which no record has been.
const NO_PERIOD: Period = Period {
    offered: 0,
    network: 0,
};

/// Replays packets on the standard receiver, and answers the tables.
#[tactic(auto, using(crate::proofs::Standard::standard_ready))]
fn replayed(alloc: Global, packets: &[Captured]) -> Result<Tables, AllocError>
    requires readable { AllByRecursion (Readable 3 (first_stamp packets.now)) packets.now }
    requires few { length packets.now ≤ 1024 }
    ensures value { IfOk result (λ t. Tabled (Ok packets.now) t) }
{
    let mut slots = Slots::EMPTY;
    let mut records = [NO_PERIOD; MOST_PERIODS];
    let outcome = run(alloc, board(&mut slots), policy(), packets, &mut records)?;
    let outcomes = in_the_end(alloc, outcome.report, &outcome.fates)?;
    Ok(Tables {
        figures: Figures {
            packets: packets.len(),
            turns: outcome.turns,
            periods: outcome.report.closed,
            fates: FateCounts::of(&outcomes),
        },
        packets: packets_table(alloc, packets, &outcomes)?,
        periods: periods_table(alloc, &outcome.records)?,
    })
}

/// Replays a capture on the standard receiver, and answers its tables as texts.
#[tactic(auto, using(crate::proofs::Readings::readable, crate::proofs::Readings::few))]
pub fn tables(alloc: Global, bytes: &[u8]) -> Result<Tables, ReadError>
    ensures value { IfOk result (λ t. Tabled (meaning 3 bytes.now) t) }
    ensures refused { IfErr result (λ e. Refuses (meaning 3 bytes.now) e) }
{
    let packets = read(alloc, bytes, BEARERS)?;
    replayed(alloc, &packets).map_err(|_| ReadError::Memory)
}

/// Replays a capture on the standard receiver, and writes its tables into memory that is lent for them.
pub fn replay(
    alloc: Global,
    bytes: &[u8],
    packets: &mut [u8],
    periods: &mut [u8],
) -> Result<Replayed, ReplayError>
    ensures value { IfOk result (λ d. Replays (meaning 3 bytes.now) packets.old periods.old d packets.new periods.new) }
    ensures refused { IfErr result (λ e. Declines (meaning 3 bytes.now) packets.old periods.old e) }
    ensures packets_same { OnErr result (packets.new ≡ packets.old) }
    ensures periods_same { OnErr result (periods.new ≡ periods.old) }
    ensures one_run { OnOk result (EveryRun (meaning 3 bytes.now) (OneRun four standard_board)) }
    ensures accepted { OnOk result (EveryRun (meaning 3 bytes.now) (AllAccepted four standard_board)) }
    ensures by_ledger { OnOk result (EveryRun (meaning 3 bytes.now) (RowsByLedger four standard_board)) }
    ensures laws { OnOk result (EveryRun (meaning 3 bytes.now) (λ _ r. Lawful four standard_board (entries four standard_board r.calls))) }
{
    let written = tables(alloc, bytes)?.write_into(packets, periods)?;
    Ok(written)
}
