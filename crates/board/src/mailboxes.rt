ghost use Rattle.std.specs.Prelude.{◌≡◌, false, not, min, [], map, position, ⊤};
ghost use Rattle.std.proofs.Common.{rules};
ghost use Rattle.std.proofs.lemmas.List.{length-take};
ghost use Rattle.board.specs.Mailbox.{is_used, has_place, held_at, advanced, mail_packets, mail_room};

use crate::lines::Line;
use crate::packets::Packet;
use std::marker::Model;

/// How many slots a mailbox has.
const SLOTS: usize = 16;

type Slots = [Option<Held>; SLOTS];

/// A packet in a slot, with its place in the line, 0 for the oldest.
#[derive(Clone, Copy)]
struct Held {
    packet: Packet,
    place: u8,
}

/// A line in 16 numbered slots of its own. A slot tells its packet's place in the line, so the packets lie in the
/// slots in any order.
#[derive(Drop)]
pub struct Mailbox {
    slots: Slots,
    depth: usize,
    /// How many packets wait. It stands beside the slots, whose memory is fixed, so as not to be counted at each call.
    count: usize,
}

impl Model for Mailbox {
    ghost use Rattle.std.specs.Prelude.{◌≤◌};
    ghost use Rattle.board.specs.Mailbox.{Mail, Numbers, line};

    ghost Value = { Mail };

    ghost view = { λ m. record { depth = m.depth; packets = line m.slots m.count } };

    ghost invariant = { λ m. (m.depth ≤ 16) × (m.count ≤ m.depth) × Numbers m.slots m.count };
}

/// Whether a slot has the oldest packet.
fn has_oldest(slot: &Option<Held>) -> bool
    ensures value { result ≡ has_place 0 slot.now }
{
    slot.is_some_and(|held| held.place == 0)
}

/// The oldest packet, whichever slot it lies in.
fn oldest(slots: &Slots) -> Option<Held>
    ensures value { result ≡ held_at slots.now 0 }
{
    slots
        .iter()
        .find(|slot| has_oldest(slot))
        .copied()
        .flatten()
}

/// Moves a slot's packet up by one place, unless it is the oldest, which leaves.
fn move_up(slot: &mut Option<Held>)
    ensures after { slot.new ≡ advanced slot.old }
{
    match slot {
        Some(held) if held.place > 0 => held.place -= 1,
        _ => *slot = None,
    }
}

/// Frees the slot of the oldest packet, and moves every other packet up by one place.
fn advance(slots: &mut Slots)
    ensures after { slots.new ≡ map advanced slots.old }
{
    for slot in slots.iter_mut() {
        move_up(slot);
    }
}

/// Which slot is free, if one is.
fn first_free(slots: &Slots) -> Option<usize>
    ensures value { result ≡ position (λ x. not (is_used x)) slots.now }
{
    slots.iter().position(Option::is_none)
}

impl Mailbox {
    /// An empty mailbox of this depth, or of 16 if that is less.
    pub(crate) fn new(depth: usize) -> Mailbox
        ensures value { result ≡ record { depth = min 16 depth; packets = [] } }
    {
        Mailbox {
            slots: [None; SLOTS],
            depth: SLOTS.min(depth),
            count: 0,
        }
    }
}

impl Line for Mailbox {
    ghost price = { 120 };

    ghost level = { false };

    ghost packets = { λ m. mail_packets m };

    ghost room = { λ m. mail_room m };

    ghost PushLeaves = { λ _ _. ⊤ };

    ghost PopLeaves = { λ _ _. ⊤ };

    ghost priced = { Prim.search rules };

    ghost within = { λ m. Prim.search (rules, length-take (mail_room m) m.packets) };

    fn cost(&self) -> u32 {
        120
    }

    fn is_level(&self) -> bool {
        false
    }

    fn capacity(&self) -> usize {
        self.depth
    }

    fn len(&self) -> usize {
        self.count
    }

    fn push(&mut self, packet: Packet) -> Result<(), Packet> {
        if self.count >= self.depth {
            return Err(packet);
        }
        match first_free(&self.slots) {
            Some(free) => {
                let place = self.count as u8;
                self.slots[free] = Some(Held { packet, place });
                self.count += 1;
                Ok(())
            }
            None => Err(packet),
        }
    }

    fn pop(&mut self) -> Option<Packet> {
        if self.count == 0 {
            return None;
        }
        let held = oldest(&self.slots)?;
        advance(&mut self.slots);
        self.count -= 1;
        Some(held.packet)
    }
}
