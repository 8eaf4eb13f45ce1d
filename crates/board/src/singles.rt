ghost use Rattle.std.specs.Prelude.{◌≡◌, ◌≢◌, min, Bool, false, [], ◌∷◌, length};
ghost use Rattle.std.specs.List.{slice_get};
ghost use Rattle.board.specs.Bearers.{bearer_of, has_room, changed, after_offer, after_take, after_arm, after_disarm};
ghost use Rattle.board.specs.Shown.{shown, ring_bearer, mailbox_bearer};
ghost use Rattle.board.specs.declared.signals.Signal.TheVariants.{Disarmed};

use crate::boards::Board;
use crate::lines::Line;
use crate::mailboxes::Mailbox;
use crate::packets::Packet;
use crate::signals::Signal;
use ring::Ring;

/// A board of one bearer.
#[derive(Drop)]
pub struct Single<L> {
    line: L,
    signal: Signal,
}

/// A board of one bearer, whose packets lie in slots that the host lends.
/// Its signal is a level: arming it while packets wait raises the signal.
pub type RingBearer<'a> = Single<Ring<'a, Packet, 256>>;

/// A board of one bearer, with 16 numbered slots of its own.
/// Its signal is an edge: only a packet that comes while it is armed raises the signal, and arming it never does.
pub type MailboxBearer = Single<Mailbox>;

impl<L: Line> Single<L> {
    /// A disarmed bearer over this line.
    fn disarmed(line: L) -> Single<L>
        ensures line { result.line ≡ line }
        ensures signal { result.signal ≡ Disarmed }
    {
        Single {
            line,
            signal: Signal::Disarmed,
        }
    }
}

impl<'a> Single<Ring<'a, Packet, 256>> {
    /// A disarmed bearer in which nothing waits, over the first 256 of the slots, or over all if there are fewer.
    pub fn new(slots: &'a mut [Packet]) -> RingBearer<'a>
        ensures value { ring_bearer result ≡ record { depth = min 256 (length slots.old); cost = 200; waiting = []; armed = false; signal = false } }
        ensures same { result.line.slots.now ≡ slots.old }
    {
        Single::disarmed(Ring::new(slots))
    }
}

impl Single<Mailbox> {
    /// A disarmed bearer in which nothing waits, of this depth, or of 16 if that is less.
    pub fn new(depth: usize) -> MailboxBearer
        ensures value { mailbox_bearer result ≡ record { depth = min 16 depth; cost = 120; waiting = []; armed = false; signal = false } }
    {
        Single::disarmed(Mailbox::new(depth))
    }
}

impl<L: Line> Board for Single<L> {
    ghost bearers = { λ x. shown (L.room x.line) L.price (L.packets x.line) x.signal ∷ [] };

    fn size(&self) -> usize {
        1
    }

    fn depth(&self, bearer: usize) -> usize {
        if bearer == 0 { self.line.capacity() } else { 0 }
    }

    fn cost(&self, bearer: usize) -> u32 {
        if bearer == 0 { self.line.cost() } else { 0 }
    }

    fn waiting(&self, bearer: usize) -> usize {
        if bearer == 0 { self.line.len() } else { 0 }
    }

    fn signal(&self, bearer: usize) -> bool {
        bearer == 0 && self.signal == Signal::Up
    }

    fn offer(&mut self, bearer: usize, packet: Packet) -> bool
        ensures value { result ≡ has_room (bearer_of (⟦<Single<L> as Board>⟧.bearers self.old) bearer) }
        ensures after { ⟦<Single<L> as Board>⟧.bearers self.new ≡ changed (⟦<Single<L> as Board>⟧.bearers self.old) bearer (after_offer packet) }
        ensures leaves { bearer ≡ 0 → L.PushLeaves self.old.line self.new.line }
        ensures same { bearer ≢ 0 → self.new ≡ self.old }
    {
        if bearer != 0 || self.line.push(packet).is_err() {
            return false;
        }
        self.signal = self.signal.after_packet();
        true
    }

    fn take(&mut self, bearer: usize) -> Option<Packet>
        ensures value { result ≡ slice_get (bearer_of (⟦<Single<L> as Board>⟧.bearers self.old) bearer).waiting 0 }
        ensures after { ⟦<Single<L> as Board>⟧.bearers self.new ≡ changed (⟦<Single<L> as Board>⟧.bearers self.old) bearer after_take }
        ensures leaves { bearer ≡ 0 → L.PopLeaves self.old.line self.new.line }
        ensures same { bearer ≢ 0 → self.new ≡ self.old }
    {
        if bearer != 0 {
            return None;
        }
        let oldest = self.line.pop();
        self.signal = self.signal.after_take(self.line.len() > 0);
        oldest
    }

    fn arm(&mut self, bearer: usize)
        ensures after { (raises : Bool) × (⟦<Single<L> as Board>⟧.bearers self.new ≡ changed (⟦<Single<L> as Board>⟧.bearers self.old) bearer (after_arm raises)) }
        ensures kind { ⟦<Single<L> as Board>⟧.bearers self.new ≡ changed (⟦<Single<L> as Board>⟧.bearers self.old) bearer (after_arm L.level) }
        ensures same { self.new.line ≡ self.old.line }
    {
        if bearer == 0 && self.signal == Signal::Disarmed {
            self.signal = self
                .signal
                .armed(self.line.is_level() && self.line.len() > 0);
        }
    }

    fn disarm(&mut self, bearer: usize)
        ensures after { ⟦<Single<L> as Board>⟧.bearers self.new ≡ changed (⟦<Single<L> as Board>⟧.bearers self.old) bearer after_disarm }
        ensures same { self.new.line ≡ self.old.line }
    {
        if bearer == 0 {
            self.signal = Signal::Disarmed;
        }
    }
}
