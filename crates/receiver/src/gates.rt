ghost use Rattle.std.specs.Prelude.{◌≡◌, ℕ, ◌<◌, ◌≤◌, false, map, length};
ghost use Rattle.board.specs.Bearers.{any_in, after_arm, after_disarm};
ghost use Rattle.machine.specs.State.{Core as Held, is_open, waits};
ghost use Rattle.machine.specs.Moves.{open_gate, shut_gate, set_gate};
ghost use Rattle.machine.specs.Tidy.{Openable};
ghost use Rattle.receiver.specs.Settings.{settings_of};

use crate::cores::Core;
use crate::settings::Settings;
use board::Board;

impl<B: Board> Core<B> {
    /// Disarms every bearer.
    fn shut_gate(&mut self)
        ensures after { self.new ≡ shut_gate self.old }
    {
        for bearer in 0..self.board.size() {
            self.disarm(bearer);
        }
    }

    /// Disarms and then arms every bearer; nothing waits in any.
    pub(crate) fn rearm(&mut self)
        requires empty { (b : ℕ) → any_in (waits self.old.bearers b) ≡ false }
        ensures after { self.new ≡ record self.old { bearers = map (λ x. after_arm false (after_disarm x)) self.old.bearers } }
        ensures few { length self.new.bearers ≤ 8 }
    {
        for bearer in 0..self.board.size() {
            self.disarm(bearer);
            self.arm(bearer);
        }
    }

    /// Opens every bearer, in the order of their numbers.
    #[tactic(auto, using(machine::proofs::Listed::openable_step, machine::proofs::Listed::openable_room))]
    fn open_gate(&mut self)
        requires openable { Openable (length self.old.bearers) self.old }
        ensures after { self.new ≡ open_gate self.old }
    {
        for bearer in 0..self.board.size() {
            self.open_bearer(bearer);
        }
    }

    /// Sets the gate at the end of a call, by whether it was open before.
    #[tactic(auto, unfolding(machine::specs::Moves::set_gate))]
    pub(crate) fn set_gate(&mut self, settings: &Settings, was_open: bool)
        requires openable { Openable (length self.old.bearers) self.old }
        ensures after { (x : Held) → is_open (settings_of settings.now) x ≡ was_open → self.new ≡ set_gate (settings_of settings.now) x self.old }
    {
        match (was_open, self.is_open(settings)) {
            (false, true) => self.open_gate(),
            (true, false) => self.shut_gate(),
            _ => {}
        }
    }
}
