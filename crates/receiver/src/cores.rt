ghost use Rattle.std.specs.Prelude.{◌≡◌};
ghost use Rattle.machine.specs.declared.answers.Answer.TheVariants.{Told};
ghost use Rattle.machine.specs.Calls.{tell};
ghost use Rattle.receiver.specs.Empty.{empty_over};

use crate::clocks::Clock;
use crate::grants::Grant;
use arrayvec::ArrayVec;
use board::{Board, MOST_BEARERS, Packet};
use machine::{Counts, Report};
use ring::Queue;
use std::marker::Model;

/// Cycles that the begin of a grant is charged.
pub const BEGIN_CHARGE: u32 = 80;

/// No more packets are out than this.
pub const MOST_OUT: usize = 16;

/// All that a receiver holds beside its policy and its settings.
#[derive(Drop)]
pub(crate) struct Core<B: Board> {
    pub board: B,
    pub clock: Clock,
    /// Periods until polling goes on; 0 is no hold.
    pub hold: u64,
    /// The poll list.
    pub listed: Queue<usize, MOST_BEARERS>,
    pub grant: Option<Grant>,
    /// Packets for the application.
    pub queue: Queue<Packet, 64>,
    /// The numbers of packets fetched, and not yet finished or discarded.
    pub out: ArrayVec<u32, MOST_OUT>,
    pub counts: Counts,
}

impl<B: Board> Model for Core<B> {
    ghost use Rattle.machine.specs.State.{Core as Held};
    ghost use Rattle.receiver.specs.Held.{clock_of, grant_held};

    ghost Value = { Held };

    ghost view = { λ c.
        record {
          bearers = B.bearers c.board;
          clock = clock_of c.clock;
          hold = c.hold;
          listed = c.listed;
          grant = grant_held c.grant;
          queue = c.queue;
          out = c.out.items;
          counts = c.counts;
        } };
}

impl<B: Board> Core<B> {
    /// Nothing, over a board.
    pub(crate) fn new(board: B) -> Self
        ensures value { result ≡ empty_over (B.bearers board) }
    {
        Core {
            board,
            clock: Clock {
                elapsed: 0,
                used: 0,
                offered: 0,
                closed: 0,
                last: None,
            },
            hold: 0,
            listed: Queue::new(0),
            grant: None,
            queue: Queue::new(Packet::BLANK),
            out: ArrayVec::new(),
            counts: Counts {
                numbered: 0,
                delivered: 0,
                bearer_full: 0,
                queue_full: 0,
                discarded: 0,
            },
        }
    }

    /// The cycles elapsed in the open period.
    pub(crate) fn elapsed(&self) -> u64
        ensures value { result ≡ self.now.clock.elapsed }
    {
        self.clock.elapsed
    }

    /// Every count, the periods closed, and the record of the last.
    pub(crate) fn tell(&self) -> Report
        ensures value { Told result ≡ (tell self.now).0 }
    {
        Report {
            counts: self.counts,
            closed: self.clock.closed,
            last: self.clock.last,
        }
    }
}
