ghost use Rattle.std.specs.Prelude.{◌≡◌, ◌+◌, ◌<◌, ◌≤◌, false, length};
ghost use Rattle.board.specs.Bearers.{any_in};
ghost use Rattle.machine.specs.State.{waits, busy, is_open};
ghost use Rattle.machine.specs.Numbers.{holds};
ghost use Rattle.machine.specs.Moves.{arm, disarm, join, settle, charge, offer_cycles, open_bearer};
ghost use Rattle.receiver.specs.Figures.{Timely};
ghost use Rattle.receiver.specs.Settings.{settings_of};

use crate::clocks::Clock;
use crate::cores::Core;
use crate::settings::Settings;
use board::Board;
use machine::Period;

impl<B: Board> Core<B> {
    /// Whether the gate is open.
    pub(crate) fn is_open(&self, settings: &Settings) -> bool
        ensures value { result ≡ is_open (settings_of settings.now) self.now }
    {
        self.clock.used < settings.limit && self.hold == 0
    }

    /// Whether a bearer is on the poll list.
    fn is_listed(&self, bearer: usize) -> bool
        ensures value { result ≡ holds bearer self.now.listed }
    {
        for i in 0..self.listed.len() {
            if self.listed.get(i) == Some(bearer) {
                return true;
            }
        }
        false
    }

    /// Whether a bearer is on the poll list or being served.
    fn is_busy(&self, bearer: usize) -> bool
        ensures value { result ≡ busy self.now bearer }
    {
        self.is_listed(bearer) || self.grant.is_some_and(|grant| grant.bearer == bearer)
    }

    /// Puts a bearer at the poll list's back.
    pub(crate) fn join(&mut self, bearer: usize)
        requires room { length self.old.listed < 8 }
        ensures after { self.new ≡ join bearer self.old }
    {
        // Not refused: no bearer is listed twice, and a board shows no more than eight.
        let _ = self.listed.push(bearer);
    }

    pub(crate) fn disarm(&mut self, bearer: usize)
        ensures after { self.new ≡ disarm bearer self.old }
    {
        self.board.disarm(bearer);
    }

    /// Arms a bearer in which nothing waits.
    pub(crate) fn arm(&mut self, bearer: usize)
        requires empty { any_in (waits self.old.bearers bearer) ≡ false }
        ensures after { self.new ≡ arm bearer self.old }
    {
        self.board.arm(bearer);
    }

    /// Arms a bearer that is not busy, or lists it if packets wait.
    pub(crate) fn open_bearer(&mut self, bearer: usize)
        requires room { busy self.old bearer ≡ false → length self.old.listed < 8 }
        ensures after { self.new ≡ open_bearer bearer self.old }
    {
        if self.is_busy(bearer) {
            return;
        }
        let waiting = self.board.waiting(bearer) > 0;
        self.board.arm(bearer);
        if waiting {
            self.board.disarm(bearer);
            self.join(bearer);
        }
    }

    /// Closes the period if it is over; then the hold, if there is one, falls by one.
    fn settle(&mut self, settings: &Settings)
        requires offered { self.old.clock.offered ≤ settings.now.period }
        requires closed { self.old.clock.closed ≤ 1000000000 }
        ensures after { self.new ≡ settle (settings_of settings.now) self.old.clock self.old }
    {
        if self.clock.elapsed < settings.period {
            return;
        }
        let rest = self.clock.elapsed - settings.period;
        let record = Period {
            offered: self.clock.offered as u32,
            network: (settings.period - self.clock.offered) as u32,
        };
        self.clock = Clock {
            elapsed: rest,
            used: rest,
            offered: 0,
            closed: self.clock.closed + 1,
            last: Some(record),
        };
        self.hold = self.hold.saturating_sub(1);
    }

    /// Counts cycles that a bearer uses.
    pub(crate) fn charge(&mut self, settings: &Settings, cycles: u64)
        requires cycles { cycles ≤ 1000000000 }
        requires time { Timely self.old.clock }
        requires offered { self.old.clock.offered ≤ settings.now.period }
        ensures after { self.new ≡ charge (settings_of settings.now) cycles self.old }
    {
        self.clock.elapsed += cycles;
        self.clock.used += cycles;
        self.settle(settings);
    }

    /// Counts cycles that the application is offered.
    pub(crate) fn offer_cycles(&mut self, settings: &Settings, cycles: u64)
        requires time { Timely self.old.clock }
        requires offered { self.old.clock.offered + cycles ≤ settings.now.period }
        ensures after { self.new ≡ offer_cycles (settings_of settings.now) cycles self.old }
    {
        self.clock.elapsed += cycles;
        self.clock.offered += cycles;
        self.settle(settings);
    }
}
