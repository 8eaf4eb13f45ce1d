ghost use Rattle.std.specs.Prelude.{◌≡◌, ◌<◌, false, None, IfSome, IfOk, OnOk, OnErr, ◌≢◌, is_some, is_ok, min};
ghost use Rattle.std.specs.Option.{option_map};
ghost use Rattle.machine.specs.Calls.{report_of};
ghost use Rattle.machine.specs.declared.calls.Call.TheVariants.{Step, Finish, Fetch, Work};
ghost use Rattle.board.specs.Bearers.{any_in};
ghost use Rattle.replay.specs.Fit.{Playable};
ghost use Rattle.replay.specs.Stages.{closed, now, to_end, next, moment, span, is_due, is_through, is_over, first_stamp, arrival, core};
ghost use Rattle.replay.specs.Turns.{Makes, Turned, answer_at, let_go};

use crate::fates::{Decision, Fate};
use board::Board;
use capture::Captured;
use machine::{Refusal, Report};
use policy::Policy;
use receiver::{Receipt, Receiver};
use standard::PERIOD;
use std::marker::Model;

/// No more periods are closed.
pub(crate) const MOST_PERIODS: usize = 1_000;

/// Cycles in a microsecond.
const CYCLES: u64 = 64;

/// The tag that each packet arrives with.
const TAG: u32 = 0;

/// Cycles that the application spends on a packet.
const TASK: u64 = 2_000;

/// The application's packet: its receipt, and the cycles that are still to go.
#[derive(Drop)]
pub(crate) struct Task {
    pub receipt: Receipt,
    pub to_go: u64,
}

/// What a turn came to.
#[derive(Clone, Copy)]
pub(crate) enum Turn {
    Stop,
    /// A call was made, which may have decided a packet's fate.
    Made(Option<Decision>),
}

/// A replay under way.
pub(crate) struct Stage<'a, B: Board, P: Policy> {
    receiver: Receiver<B, P>,
    /// The packets still to arrive.
    coming: &'a [Captured],
    /// The first packet's timestamp, from which moments count.
    first: u64,
    task: Option<Task>,
}

impl<'a, B: Board, P: Policy> Model for Stage<'a, B, P> {
    ghost use Rattle.replay.specs.Turns.{Playing, task_of};

    ghost Value = { Playing P };

    ghost view = { λ s.
        record {
          policy = s.receiver.policy;
          stage = record { receiver = s.receiver.state; coming = s.coming.now; first = s.first; task = task_of s.task };
        } };
}

impl<'a, B: Board, P: Policy> Stage<'a, B, P> {
    /// The start, with a receiver that is just configured.
    pub(crate) fn start(receiver: Receiver<B, P>, packets: &'a [Captured]) -> Self
        ensures value { result ≡ record { policy = receiver.policy; stage = record { receiver = receiver.state; coming = packets.now; first = first_stamp packets.now; task = None } } }
    {
        Stage {
            receiver,
            coming: packets,
            first: packets.first().map_or(0, |packet| packet.microseconds),
            task: None,
        }
    }

    /// What the receiver tells.
    pub(crate) fn tell(&self) -> Report
        requires fit { Playable P.meaning self.now }
        ensures value { result ≡ report_of (core self.now.stage.receiver) }
    {
        self.receiver.tell()
    }

    fn now(&self) -> u64
        requires fit { Playable P.meaning self.now }
        ensures value { result ≡ now self.now.stage }
    {
        u64::from(self.tell().closed) * PERIOD + self.receiver.elapsed()
    }

    /// Cycles to the period's end.
    fn to_end(&self) -> u64
        requires fit { Playable P.meaning self.now }
        ensures value { result ≡ to_end self.now.stage }
    {
        PERIOD - self.receiver.elapsed()
    }

    /// The moment of the next packet, if one is still to arrive.
    fn next_moment(&self) -> Option<u64>
        requires fit { Playable P.meaning self.now }
        ensures value { result ≡ option_map (moment self.now.stage) (next self.now.stage) }
    {
        let next = self.coming.first()?;
        Some(CYCLES * next.microseconds.saturating_sub(self.first))
    }

    fn is_due(&self) -> bool
        requires fit { Playable P.meaning self.now }
        ensures value { result ≡ is_due self.now.stage }
    {
        match self.next_moment() {
            Some(moment) => moment <= self.now(),
            None => false,
        }
    }

    /// Cycles to the period's end or to the next packet's moment, whichever comes first.
    fn span(&self) -> u64
        requires fit { Playable P.meaning self.now }
        ensures value { result ≡ span self.now.stage }
    {
        let to_end = self.to_end();
        match self.next_moment() {
            Some(moment) => to_end.min(moment.saturating_sub(self.now())),
            None => to_end,
        }
    }

    /// Whether the application's packet has no cycles to go.
    fn is_through(&self) -> bool
        ensures value { result ≡ is_through self.now.stage }
    {
        self.task.as_ref().is_some_and(|task| task.to_go == 0)
    }

    /// Whether no packet is still to arrive and none is in a bearer, the queue or out: as many are gone as were numbered.
    fn is_over(&self) -> bool
        requires fit { Playable P.meaning self.now }
        ensures value { result ≡ is_over self.now.stage }
    {
        let counts = self.tell().counts;
        let gone = counts.delivered + counts.bearer_full + counts.queue_full + counts.discarded;
        self.coming.is_empty() && gone == counts.numbered
    }

    /// The next packet arrives.
    fn arrive(&mut self) -> Option<Decision>
        requires coming { next self.old.stage ≢ None }
        ensures after { IfSome (next self.old.stage) (λ q. Makes P.meaning (arrival q) self.old result self.new) }
    {
        let (packet, rest) = self.coming.split_first()?;
        self.coming = rest;
        let arrival = self
            .receiver
            .arrive(packet.bearer, packet.length as usize, TAG)
            .ok()?;
        Decision::of_arrival(arrival)
    }

    /// The application is through with its packet.
    fn finish(&mut self) -> Option<Decision>
        requires fit { Playable P.meaning self.old }
        ensures after { IfSome self.old.stage.task (λ t. Makes P.meaning (Finish t.number) self.old result self.new) }
    {
        let Task { receipt, to_go: _ } = self.task.take()?;
        let number = receipt.number();
        self.receiver.finish(receipt).unwrap();
        Some(Decision {
            number,
            fate: Fate::Delivered,
        })
    }

    /// Goes on with the polling, unless that is refused.
    #[tactic(auto, using(machine::proofs::OneCall::call_refused))]
    fn step(&mut self) -> Result<Option<Decision>, Refusal>
        ensures value { is_ok result ≡ is_ok (answer_at P.meaning Step self.old) }
        ensures after { IfOk result (λ d. Makes P.meaning Step self.old d self.new) }
        ensures same { OnErr result (self.new ≡ self.old) }
    {
        let progress = self.receiver.step()?;
        Ok(Decision::of_step(progress))
    }

    /// The application gets the queue's first packet, unless that is refused.
    #[tactic(auto, using(machine::proofs::OneCall::call_refused))]
    fn fetch(&mut self) -> Result<(), Refusal>
        requires fit { Playable P.meaning self.old }
        requires none { self.old.stage.task ≡ None }
        ensures value { is_ok result ≡ any_in (core self.old.stage.receiver).queue }
        ensures after { OnOk result (Makes P.meaning Fetch self.old None self.new) }
        ensures same { OnErr result (self.new ≡ self.old) }
    {
        let (_packet, receipt) = self.receiver.fetch()?;
        self.task = Some(Task {
            receipt,
            to_go: TASK,
        });
        Ok(())
    }

    /// The application works on its packet until something else is to be done. Answers whether it has one.
    fn work_on(&mut self) -> bool
        requires fit { Playable P.meaning self.old }
        ensures value { result ≡ is_some self.old.stage.task }
        ensures after { IfSome self.old.stage.task (λ t. Makes P.meaning (Work (min t.to_go (span self.old.stage))) self.old None self.new) }
        ensures same { result ≡ false → self.new ≡ self.old }
    {
        let span = self.span();
        let Some(task) = self.task.as_mut() else {
            return false;
        };
        let cycles = task.to_go.min(span);
        task.to_go -= cycles;
        // Not refused: there are some cycles, and they end with the period.
        let _ = self.receiver.work(cycles);
        true
    }

    /// Time passes without a packet for the application, until something else is to be done.
    fn wait(&mut self)
        requires fit { Playable P.meaning self.old }
        requires none { self.old.stage.task ≡ None }
        ensures after { Makes P.meaning (Work (span self.old.stage)) self.old None self.new }
    {
        let span = self.span();
        // Not refused, as above.
        let _ = self.receiver.work(span);
    }

    /// A turn in which nothing is due, and no step can be made.
    fn pass(&mut self) -> Turn
        requires fit { Playable P.meaning self.old }
        requires open { closed self.old.stage < 1000 }
        requires due { is_due self.old.stage ≡ false }
        requires through { is_through self.old.stage ≡ false }
        requires step { is_ok (answer_at P.meaning Step self.old) ≡ false }
        ensures value { Turned P.meaning self.old result self.new }
    {
        if self.work_on() {
            return Turn::Made(None);
        }
        if self.fetch().is_ok() {
            return Turn::Made(None);
        }
        if self.is_over() {
            return Turn::Stop;
        }
        self.wait();
        Turn::Made(None)
    }

    /// Does what is first to be done.
    #[tactic(auto, using(crate::proofs::Turning::turning))]
    pub(crate) fn turn(&mut self) -> Turn
        requires fit { Playable P.meaning self.old }
        ensures value { Turned P.meaning self.old result self.new }
    {
        if self.tell().closed as usize >= MOST_PERIODS {
            return Turn::Stop;
        }
        if self.is_due() {
            return Turn::Made(self.arrive());
        }
        if self.is_through() {
            return Turn::Made(self.finish());
        }
        if let Ok(decision) = self.step() {
            return Turn::Made(decision);
        }
        self.pass()
    }

    /// Lets the receiver go. The application's packet, if it has one, is discarded, in no turn.
    pub(crate) fn end(self) -> Receiver<B, P>
        requires fit { Playable P.meaning self }
        ensures value { result ≡ let_go P.meaning self.entry }
    {
        let Stage {
            mut receiver,
            coming: _,
            first: _,
            task,
        } = self;
        if let Some(Task { receipt, to_go: _ }) = task {
            receiver.discard(receipt).unwrap();
        }
        receiver
    }
}
