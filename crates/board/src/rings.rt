ghost use Rattle.std.proofs.Common.{rules};
ghost use Rattle.std.specs.Prelude.{◌≡◌, true};
ghost use Rattle.ring.specs.Queue.{beyond, ring_capacity, ring_elements};

use crate::lines::Line;
use crate::packets::Packet;
use ring::Ring;

/// A line in slots that the host lends: the first 256 of them, or all if there are fewer.
impl<'a> Line for Ring<'a, Packet, 256> {
    ghost use Rattle.ring.proofs.Turned.{length-ring_elements};

    ghost price = { 200 };

    ghost level = { true };

    ghost packets = { λ r. ring_elements r };

    ghost room = { λ r. ring_capacity r };

    ghost PushLeaves = { λ r s. beyond s ≡ beyond r };

    ghost PopLeaves = { λ r s. s.slots ≡ r.slots };

    ghost priced = { Prim.search rules };

    ghost within = { λ r. Prim.search (rules, length-ring_elements r) };

    fn cost(&self) -> u32 {
        200
    }

    fn is_level(&self) -> bool {
        true
    }

    fn capacity(&self) -> usize {
        self.capacity()
    }

    fn len(&self) -> usize {
        self.len()
    }

    fn push(&mut self, packet: Packet) -> Result<(), Packet> {
        self.push(packet)
    }

    fn pop(&mut self) -> Option<Packet> {
        self.pop()
    }
}
