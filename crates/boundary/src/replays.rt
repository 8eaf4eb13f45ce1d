ghost use Rattle.std.specs.Prelude.{◌≡◌, Result};
ghost use Rattle.capture.specs.Captures.{meaning};
ghost use Rattle.machine.specs.Standard.{standard_board, four};
ghost use Rattle.replay.specs.Answers.{EveryRun};
ghost use Rattle.replay.specs.ByLedger.{RowsByLedger};
ghost use Rattle.machine.specs.Laws.{Lawful};
ghost use Rattle.replay.specs.Runs.{AllAccepted, OneRun, entries};
ghost use Rattle.boundary.specs.Replays.{Ends, figures_of, replay_end};

use crate::statuses::{NO_MEMORY, REFUSED, WRITTEN};
use replay::{ReplayError, Replayed, replay};
use std::alloc::Global;

/// What a replay came to, in figures, and how many bytes its tables have.
#[repr(C)]
#[derive(Clone, Copy)]
pub struct Figures {
    pub packets: usize,
    pub turns: u64,
    pub periods: u32,
    pub delivered: usize,
    pub bearer_full: usize,
    pub queue_full: usize,
    pub waiting: usize,
    pub pending: usize,
    pub packets_len: usize,
    pub periods_len: usize,
}

/// How a replay ended.
#[repr(C)]
#[derive(Clone, Copy)]
pub struct ReplayEnd {
    pub status: u32,
    /// The refusal's number, or 0.
    pub number: u32,
    /// The refusal's place, or 0.
    pub place: usize,
    /// All 0 if the tables were not written.
    pub figures: Figures,
}

const NO_FIGURES: Figures = Figures {
    packets: 0,
    turns: 0,
    periods: 0,
    delivered: 0,
    bearer_full: 0,
    queue_full: 0,
    waiting: 0,
    pending: 0,
    packets_len: 0,
    periods_len: 0,
};

impl From<Replayed> for Figures {
    ghost from_gives = { λ done r. r ≡ figures_of done };

    fn from(done: Replayed) -> Figures {
        let fates = done.figures.fates;
        Figures {
            packets: done.figures.packets,
            turns: done.figures.turns,
            periods: done.figures.periods,
            delivered: fates.delivered,
            bearer_full: fates.bearer_full,
            queue_full: fates.queue_full,
            waiting: fates.waiting,
            pending: fates.pending,
            packets_len: done.packets_len,
            periods_len: done.periods_len,
        }
    }
}

impl From<Result<Replayed, ReplayError>> for ReplayEnd {
    ghost from_gives = { λ answer r. r ≡ replay_end answer };

    fn from(answer: Result<Replayed, ReplayError>) -> ReplayEnd {
        let (status, number, place, figures) = match answer {
            Ok(done) => (WRITTEN, 0, 0, Figures::from(done)),
            Err(ReplayError::Refused(refusal)) => (
                REFUSED,
                u32::from(refusal.number()),
                refusal.place(),
                NO_FIGURES,
            ),
            Err(ReplayError::Memory) => (NO_MEMORY, 0, 0, NO_FIGURES),
        };
        ReplayEnd {
            status,
            number,
            place,
            figures,
        }
    }
}

/// Replays a capture on the standard receiver, and writes its tables into memory that is lent for them.
#[unsafe(no_mangle)]
pub extern "C" fn zuphlos_replay(
    alloc: Global,
    capture: &[u8],
    packets: &mut [u8],
    periods: &mut [u8],
) -> ReplayEnd
    ensures value { (answer : Result Replayed ReplayError) × (result ≡ replay_end answer) × Ends (meaning 3 capture.now) packets.old periods.old answer packets.new periods.new }
    ensures one_run { result.status ≡ WRITTEN → EveryRun (meaning 3 capture.now) (OneRun four standard_board) }
    ensures accepted { result.status ≡ WRITTEN → EveryRun (meaning 3 capture.now) (AllAccepted four standard_board) }
    ensures by_ledger { result.status ≡ WRITTEN → EveryRun (meaning 3 capture.now) (RowsByLedger four standard_board) }
    ensures laws { result.status ≡ WRITTEN → EveryRun (meaning 3 capture.now) (λ _ r. Lawful four standard_board (entries four standard_board r.calls)) }
{
    ReplayEnd::from(replay(alloc, capture, packets, periods))
}
