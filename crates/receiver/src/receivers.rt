ghost use Rattle.std.specs.Prelude.{◌≡◌, false, Ok, IfOk, IfErr};
ghost use Rattle.std.specs.Result.{result_map_both};
ghost use Rattle.machine.specs.State.{put_up};
ghost use Rattle.machine.specs.declared.answers.Answer.TheVariants.{Configured, Arrived, Stepped, Worked, Fetched, Finished, Discarded, Told};
ghost use Rattle.machine.specs.declared.calls.Call.TheVariants.{Configure, Arrive, Step, Work, Fetch, Finish, Discard, Tell};
ghost use Rattle.receiver.specs.Ends.{answer_of, call_of};
ghost use Rattle.receiver.specs.Receivers.{answer_to, after, answered, elapsed_in};

use crate::cores::Core;
use crate::ends::End;
use crate::receipts::{Receipt, Unspent};
use crate::settings::Settings;
use board::{Board, Packet};
use machine::{Arrival, Progress, RawSettings, Refusal, Report};
use policy::Policy;
use std::marker::Model;

/// The receive side of a node: a board, a batch policy, and all that polling takes, in memory of its own.
#[derive(Drop)]
pub struct Receiver<B: Board, P: Policy> {
    core: Core<B>,
    policy: P,
    /// Until it is configured there are none, and the core is empty.
    settings: Option<Settings>,
}

impl<B: Board, P: Policy> Model for Receiver<B, P> {
    ghost use Rattle.receiver.specs.Receivers.{Receiving};
    ghost use Rattle.receiver.specs.Fields.{state_of, IsKept};

    ghost Value = { Receiving P };

    ghost view = { λ r. record { policy = r.policy; state = state_of r.settings r.core } };

    ghost invariant = { λ r. IsKept P.GREATEST r.settings r.core };
}

impl<B: Board, P: Policy> Receiver<B, P> {
    /// Puts up a receiver over a board and a policy: nothing is in it, and its gate is shut.
    pub fn new(board: B, policy: P) -> Self
        ensures value { result ≡ record { policy = policy; state = put_up (B.bearers board) } }
    {
        Receiver {
            core: Core::new(board),
            policy,
            settings: None,
        }
    }

    /// Configures the receiver, once.
    pub fn configure(&mut self, numbers: RawSettings) -> Result<(), Refusal>
        ensures value { answered (λ _. Configured) result ≡ answer_to P.meaning (Configure numbers) self.old }
        ensures after { self.new ≡ after P.meaning (Configure numbers) self.old }
    {
        if self.settings.is_some() {
            return Err(Refusal::AlreadyConfigured);
        }
        let settings = match Settings::new(numbers) {
            Ok(settings) => settings,
            Err(setting) => return Err(Refusal::from(setting)),
        };
        self.core.check_waiting()?;
        self.core.check_share(&settings, P::GREATEST)?;
        self.core.rearm();
        self.settings = Some(settings);
        Ok(())
    }

    /// Numbers a packet and offers it to its bearer.
    pub fn arrive(&mut self, bearer: usize, length: usize, tag: u32) -> Result<Arrival, Refusal>
        ensures value { answered Arrived result ≡ answer_to P.meaning (Arrive bearer length tag) self.old }
        ensures after { self.new ≡ after P.meaning (Arrive bearer length tag) self.old }
    {
        let settings = self.settings.ok_or(Refusal::NotConfigured)?;
        self.core.check_arrive(bearer, length)?;
        let was_open = self.core.is_open(&settings);
        let arrival = self.core.arrive(&settings, bearer, length, tag);
        self.core.set_gate(&settings, was_open);
        Ok(arrival)
    }

    /// Goes on with the polling: begins a grant, takes a packet by it, or closes it.
    pub fn step(&mut self) -> Result<Progress, Refusal>
        ensures value { answered Stepped result ≡ answer_to P.meaning Step self.old }
        ensures after { self.new ≡ after P.meaning Step self.old }
    {
        let settings = self.settings.ok_or(Refusal::NotConfigured)?;
        self.core.check_step(&settings)?;
        let was_open = self.core.is_open(&settings);
        let progress = self.core.step(&settings, &self.policy);
        self.core.set_gate(&settings, was_open);
        Ok(progress)
    }

    /// Offers cycles to the application.
    pub fn work(&mut self, cycles: u64) -> Result<(), Refusal>
        ensures value { answered (λ _. Worked) result ≡ answer_to P.meaning (Work cycles) self.old }
        ensures after { self.new ≡ after P.meaning (Work cycles) self.old }
    {
        let settings = self.settings.ok_or(Refusal::NotConfigured)?;
        self.core.check_work(&settings, cycles)?;
        let was_open = self.core.is_open(&settings);
        self.core.offer_cycles(&settings, cycles);
        self.core.set_gate(&settings, was_open);
        Ok(())
    }

    /// Hands over the queue's first packet, and its receipt.
    pub fn fetch(&mut self) -> Result<(Packet, Receipt), Refusal>
        ensures value { answered (λ r. Fetched r.0) result ≡ answer_to P.meaning Fetch self.old }
        ensures receipt { IfOk result (λ r. r.1 ≡ record { number = r.0.number; spent = false }) }
        ensures after { self.new ≡ after P.meaning Fetch self.old }
    {
        let settings = self.settings.ok_or(Refusal::NotConfigured)?;
        self.core.check_fetch()?;
        let was_open = self.core.is_open(&settings);
        let packet = self.core.fetch(&settings);
        self.core.set_gate(&settings, was_open);
        Ok((packet, Receipt::of(packet)))
    }

    /// Spends a receipt, to the end that its packet comes to.
    fn spend(&mut self, receipt: Receipt, end: End) -> Result<(), Unspent>
        ensures value { result_map_both (λ _. answer_of end) (λ u. u.refusal) result ≡ answer_to P.meaning (call_of end receipt.number) self.old }
        ensures receipt { IfErr result (λ u. u.receipt ≡ receipt) }
        ensures after { self.new ≡ after P.meaning (call_of end receipt.number) self.old }
    {
        if let Err(refusal) = self.core.spend(receipt.number(), end) {
            return Err(receipt.refused(refusal));
        }
        // Neither used nor the hold has changed, so the gate stays.
        receipt.spend();
        Ok(())
    }

    /// Spends a receipt: its packet is delivered.
    pub fn finish(&mut self, receipt: Receipt) -> Result<(), Unspent>
        ensures value { result_map_both (λ _. Finished) (λ u. u.refusal) result ≡ answer_to P.meaning (Finish receipt.number) self.old }
        ensures receipt { IfErr result (λ u. u.receipt ≡ receipt) }
        ensures after { self.new ≡ after P.meaning (Finish receipt.number) self.old }
    {
        self.spend(receipt, End::Delivered)
    }

    /// Spends a receipt: its packet is dropped, as discarded.
    pub fn discard(&mut self, receipt: Receipt) -> Result<(), Unspent>
        ensures value { result_map_both (λ _. Discarded) (λ u. u.refusal) result ≡ answer_to P.meaning (Discard receipt.number) self.old }
        ensures receipt { IfErr result (λ u. u.receipt ≡ receipt) }
        ensures after { self.new ≡ after P.meaning (Discard receipt.number) self.old }
    {
        self.spend(receipt, End::Discarded)
    }

    /// Reads every count, the periods closed, and the record of the last.
    pub fn tell(&self) -> Report
        ensures value { Ok (Told result) ≡ answer_to P.meaning Tell self.now }
    {
        self.core.tell()
    }

    /// The cycles elapsed in the open period; before the receiver is configured, 0. A host that plans its work asks it.
    pub fn elapsed(&self) -> u64
        ensures value { result ≡ elapsed_in self.now.state }
    {
        self.core.elapsed()
    }
}
