ghost use Rattle.std.specs.Prelude.{◌≡◌, ℕ, ◌≤◌, Bool, List, ◌∷◌, [], ◌++◌, length, drop, if◌then◌else◌, Ok, Err};
ghost use Rattle.std.specs.List.{slice_get};
ghost use Rattle.board.specs.Bearers.{any_room};
ghost use Rattle.board.specs.declared.packets.Packet.{Packet};

use crate::packets::Packet;

/// The line of packets that wait in one bearer, and what else sets the bearer's kind apart.
// Price and level are ghost members beside methods: a constant with a ghost member cannot stand in an `impl` that has
// a lifetime parameter, as a ring's has.
pub trait Line {
    ghost price: { ℕ };

    ghost level: { Bool };

    /// The packets, oldest first.
    ghost packets: { Self → List Packet };

    /// How many it can hold.
    ghost room: { Self → ℕ };

    /// What a push leaves as it was, beside the line.
    ghost PushLeaves: { Self → Self → Type 0 };

    /// What a pop leaves as it was, beside the line.
    ghost PopLeaves: { Self → Self → Type 0 };

    /// What it costs to take a packet, in cycles.
    fn cost(&self) -> u32
        ensures value { result ≡ price };

    /// Whether arming the bearer raises its signal while packets wait. Otherwise only a packet that comes raises it.
    fn is_level(&self) -> bool
        ensures value { result ≡ level };

    /// How many packets it can hold.
    fn capacity(&self) -> usize
        ensures value { result ≡ room self.now };

    /// How many packets wait.
    fn len(&self) -> usize
        ensures value { result ≡ length (packets self.now) };

    /// Puts the packet behind all others, or hands it back if there is no room.
    fn push(&mut self, packet: Packet) -> Result<(), Packet>
        ensures value { result ≡ (if any_room (packets self.old) (room self.old) then Ok tt else Err packet) }
        ensures after { packets self.new ≡ (if any_room (packets self.old) (room self.old) then packets self.old ++ packet ∷ [] else packets self.old) }
        ensures room { room self.new ≡ room self.old }
        ensures leaves { PushLeaves self.old self.new };

    /// Takes out the oldest packet.
    fn pop(&mut self) -> Option<Packet>
        ensures value { result ≡ slice_get (packets self.old) 0 }
        ensures after { packets self.new ≡ drop 1 (packets self.old) }
        ensures room { room self.new ≡ room self.old }
        ensures leaves { PopLeaves self.old self.new };

    ghost priced: { (1 ≤ price) × (price ≤ 2000) };

    ghost within: { (x : Self) → (length (packets x) ≤ room x) × (room x ≤ 256) };
}
