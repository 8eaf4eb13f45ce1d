ghost use Rattle.std.specs.Prelude.{◌≡◌};
ghost use Rattle.replay.specs.Answers.{counted};

use crate::fates::{Fallen, Fate};
use std::alloc::Global;

/// How many packets there are of each fate.
#[derive(Clone, Copy, PartialEq, Eq, Debug)]
pub struct FateCounts {
    pub delivered: usize,
    pub bearer_full: usize,
    pub queue_full: usize,
    pub waiting: usize,
    pub pending: usize,
}

/// What a replay came to, in figures.
#[derive(Clone, Copy, PartialEq, Eq, Debug)]
pub struct Figures {
    /// The packets of the capture.
    pub packets: usize,
    /// The turns made, the stop not counted.
    pub turns: u64,
    /// The periods closed.
    pub periods: u32,
    pub fates: FateCounts,
}

/// What a replay answers whose tables were written.
#[derive(Clone, Copy, PartialEq, Eq, Debug)]
pub struct Replayed {
    pub figures: Figures,
    /// How many bytes the packets table has.
    pub packets_len: usize,
    /// How many bytes the periods table has.
    pub periods_len: usize,
}

/// The tables of a replay, and its figures.
#[derive(Drop)]
pub struct Tables {
    pub figures: Figures,
    /// In bytes, as `table` appends its rows.
    pub packets: Vec<u8>,
    pub periods: Vec<u8>,
}

impl FateCounts {
    /// Of so many packets, by what became of each.
    pub(crate) fn of(outcomes: &[Fallen]) -> FateCounts
        ensures value { result ≡ counted outcomes.now }
    {
        let mut counts = FateCounts {
            delivered: 0,
            bearer_full: 0,
            queue_full: 0,
            waiting: 0,
            pending: 0,
        };
        for fallen in outcomes {
            match fallen.fate {
                Fate::Delivered => counts.delivered += 1,
                Fate::BearerFull => counts.bearer_full += 1,
                Fate::QueueFull => counts.queue_full += 1,
                Fate::Waiting => counts.waiting += 1,
                Fate::Pending => counts.pending += 1,
            }
        }
        counts
    }
}
