ghost use Rattle.std.specs.Result.{result_err};
ghost use Rattle.std.specs.Prelude.{◌≡◌, ◌<◌, ◌≤◌, ◌≢◌, true, None, length, OnOk, OnErr};
ghost use Rattle.std.specs.List.{slice_get};
ghost use Rattle.board.specs.Bearers.{bearer_of, changed, after_offer, any_in};
ghost use Rattle.machine.specs.State.{waits};
ghost use Rattle.machine.specs.declared.answers.Answer.TheVariants.{Arrived, Stepped, Fetched};
ghost use Rattle.machine.specs.Checks.{first_refusal};
ghost use Rattle.machine.specs.Machine.{out_checks};
ghost use Rattle.machine.specs.Calls.{next_packet, arrive, begin, has_queue_room, queued, take_by, close, serve, step, fetch, spend};
ghost use Rattle.receiver.specs.Ends.{one_of};
ghost use Rattle.receiver.specs.Figures.{Timely, Counted};
ghost use Rattle.receiver.specs.Held.{grant_of};
ghost use Rattle.receiver.specs.Places.{StandsAt};
ghost use Rattle.receiver.specs.Settings.{settings_of};

use crate::cores::{BEGIN_CHARGE, Core};
use crate::ends::End;
use crate::grants::Grant;
use crate::settings::Settings;
use board::{Board, Packet, class_cost};
use machine::{Arrival, Progress, Refusal};
use policy::Policy;

/// Cycles that an arrival is charged whose bearer signals.
const SIGNAL_CHARGE: u64 = 60;

impl<B: Board> Core<B> {
    /// Numbers a packet and offers it to its bearer, which joins the poll list if that raises its signal.
    #[tactic(auto, unfolding(machine::specs::Calls::arrive))]
    pub(crate) fn arrive(
        &mut self,
        settings: &Settings,
        bearer: usize,
        octets: usize,
        tag: u32,
    ) -> Arrival
        requires time { Timely self.old.clock }
        requires offered { self.old.clock.offered ≤ settings.now.period }
        requires counts { Counted self.old.counts }
        requires length { octets ≤ 384 }
        requires room { (bearer_of (changed self.old.bearers bearer (after_offer (next_packet octets tag self.old))) bearer).signal ≡ true → length self.old.listed < 8 }
        ensures value { Arrived result ≡ (arrive (settings_of settings.now) bearer octets tag self.old).0 }
        ensures after { self.new ≡ (arrive (settings_of settings.now) bearer octets tag self.old).1 }
    {
        let number = self.counts.numbered;
        self.counts.numbered += 1;
        let packet = Packet {
            number,
            length: octets as u16,
            tag,
        };
        let accepted = self.board.offer(bearer, packet);
        if !accepted {
            self.counts.bearer_full += 1;
        } else if self.board.signal(bearer) {
            self.disarm(bearer);
            self.join(bearer);
            self.charge(settings, SIGNAL_CHARGE);
        }
        Arrival { number, accepted }
    }

    /// Gives the poll list's first bearer a grant, of the policy's quota.
    #[tactic(auto, unfolding(machine::specs::Calls::begin))]
    fn begin<P: Policy>(&mut self, settings: &Settings, policy: &P) -> Progress
        requires time { Timely self.old.clock }
        requires offered { self.old.clock.offered ≤ settings.now.period }
        requires listed { any_in self.old.listed ≡ true }
        ensures value { Stepped result ≡ (begin (settings_of settings.now) (P.meaning policy.now) self.old).0 }
        ensures after { self.new ≡ (begin (settings_of settings.now) (P.meaning policy.now) self.old).1 }
    {
        let bearer = self.listed.pop().unwrap();
        let quota = policy.quota(bearer, self.board.waiting(bearer));
        self.grant = Some(Grant {
            bearer,
            left: quota,
        });
        self.charge(settings, u64::from(BEGIN_CHARGE));
        Progress::Begun { bearer, quota }
    }

    /// Puts a packet into the queue, or drops it if the queue is full.
    fn enqueue(&mut self, settings: &Settings, packet: Packet) -> bool
        requires counts { Counted self.old.counts }
        ensures value { result ≡ has_queue_room (settings_of settings.now) self.old }
        ensures after { self.new ≡ queued (settings_of settings.now) packet self.old }
    {
        let room = self.queue.len() < settings.size;
        if room {
            // Not refused: S is at most the queue's slots.
            let _ = self.queue.push(packet);
        } else {
            self.counts.queue_full += 1;
        }
        room
    }

    /// Takes a packet from the grant's bearer, if one waits there.
    fn take(&mut self, settings: &Settings, grant: Grant) -> Progress
        requires time { Timely self.old.clock }
        requires offered { self.old.clock.offered ≤ settings.now.period }
        requires counts { Counted self.old.counts }
        requires left { grant.left ≢ 0 }
        ensures value { Stepped result ≡ (take_by (settings_of settings.now) (grant_of grant) (slice_get (waits self.old.bearers grant.bearer) 0) self.old).0 }
        ensures after { self.new ≡ (take_by (settings_of settings.now) (grant_of grant) (slice_get (waits self.old.bearers grant.bearer) 0) self.old).1 }
    {
        let cost = self.board.cost(grant.bearer);
        let Some(packet) = self.board.take(grant.bearer) else {
            self.grant = Some(Grant { left: 0, ..grant });
            return Progress::Empty;
        };
        self.grant = Some(Grant {
            left: grant.left - 1,
            ..grant
        });
        self.charge(settings, u64::from(cost + class_cost(packet.length)));
        let queued = self.enqueue(settings, packet);
        if self.queue.len() >= settings.high {
            self.hold = settings.hold;
            self.grant = Some(Grant { left: 0, ..grant });
        }
        Progress::Taken {
            number: packet.number,
            queued,
        }
    }

    /// Ends a grant: its bearer gets another turn if packets wait in it, and is armed otherwise.
    fn close(&mut self, settings: &Settings, grant: Grant) -> Progress
        requires room { length self.old.listed < 8 }
        ensures value { Stepped result ≡ (close (settings_of settings.now) (grant_of grant) self.old).0 }
        ensures after { self.new ≡ (close (settings_of settings.now) (grant_of grant) self.old).1 }
    {
        self.grant = None;
        if self.board.waiting(grant.bearer) > 0 {
            self.join(grant.bearer);
            return Progress::Rescheduled;
        }
        if self.is_open(settings) {
            self.arm(grant.bearer);
        }
        Progress::Completed
    }

    /// Goes on with a grant.
    #[tactic(auto, unfolding(machine::specs::Calls::serve))]
    fn serve(&mut self, settings: &Settings, grant: Grant) -> Progress
        requires time { Timely self.old.clock }
        requires offered { self.old.clock.offered ≤ settings.now.period }
        requires counts { Counted self.old.counts }
        requires room { length self.old.listed < 8 }
        ensures value { Stepped result ≡ (serve (settings_of settings.now) (grant_of grant) self.old).0 }
        ensures after { self.new ≡ (serve (settings_of settings.now) (grant_of grant) self.old).1 }
    {
        if grant.left == 0 {
            self.close(settings, grant)
        } else {
            self.take(settings, grant)
        }
    }

    /// Goes on with the polling: with the grant that runs, or by beginning the next.
    pub(crate) fn step<P: Policy>(&mut self, settings: &Settings, policy: &P) -> Progress
        requires time { Timely self.old.clock }
        requires offered { self.old.clock.offered ≤ settings.now.period }
        requires counts { Counted self.old.counts }
        requires listed { self.old.grant ≡ None → any_in self.old.listed ≡ true }
        requires room { self.old.grant ≢ None → length self.old.listed < 8 }
        ensures value { Stepped result ≡ (step (settings_of settings.now) (P.meaning policy.now) self.old.grant self.old).0 }
        ensures after { self.new ≡ (step (settings_of settings.now) (P.meaning policy.now) self.old.grant self.old).1 }
    {
        match self.grant {
            None => self.begin(settings, policy),
            Some(grant) => self.serve(settings, grant),
        }
    }

    /// Hands over the queue's first packet.
    #[tactic(auto, unfolding(machine::specs::Calls::fetch))]
    pub(crate) fn fetch(&mut self, settings: &Settings) -> Packet
        requires queued { any_in self.old.queue ≡ true }
        requires room { length self.old.out < 16 }
        ensures value { Fetched result ≡ (fetch (settings_of settings.now) self.old).0 }
        ensures after { self.new ≡ (fetch (settings_of settings.now) self.old).1 }
    {
        let packet = self.queue.pop().unwrap();
        if self.queue.len() <= settings.low {
            self.hold = 0;
        }
        self.out.push(packet.number);
        packet
    }

    /// Where a number stands among those that are out.
    #[tactic(auto, using(crate::proofs::Searches::held_here, crate::proofs::Searches::held_further, crate::proofs::Searches::left_here, crate::proofs::Searches::left_further))]
    fn place_out(&self, number: u32) -> Option<usize>
        ensures value { StandsAt number self.now.out result }
    {
        for i in 0..self.out.len() {
            if self.out[i] == number {
                return Some(i);
            }
        }
        None
    }

    /// Takes a number off those that are out, if it is one of them, and counts its packet.
    pub(crate) fn spend(&mut self, number: u32, end: End) -> Result<(), Refusal>
        requires counts { Counted self.old.counts }
        ensures value { result_err result ≡ first_refusal (out_checks number self.old) }
        ensures after { OnOk result (self.new ≡ spend number (one_of end) self.old) }
        ensures same { OnErr result (self.new ≡ self.old) }
    {
        let place = self.place_out(number).ok_or(Refusal::NotOut)?;
        self.out.remove(place);
        match end {
            End::Delivered => self.counts.delivered += 1,
            End::Discarded => self.counts.discarded += 1,
        }
        Ok(())
    }
}
