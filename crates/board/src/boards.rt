ghost use Rattle.std.specs.Prelude.{◌≡◌, ◌≤◌, Bool, List, length};
ghost use Rattle.std.specs.List.{slice_get};
ghost use Rattle.board.specs.Bearers.{Bearer, IsBoard, bearer_of, has_room, changed, after_offer, after_take, after_arm, after_disarm};

use crate::packets::Packet;

/// No board shows more bearers than this.
pub const MOST_BEARERS: usize = 8;

/// One to eight bearers, numbered from 0. How many there are, their depths and their costs never change.
///
/// A call touches no bearer but the one that it names. For a bearer that is not shown, `offer` refuses, `take` answers
/// none, a question answers 0 or `false`, and nothing changes.
pub trait Board {
    /// The bearers, in the order of their numbers.
    ghost bearers: { Self → List Bearer };

    /// How many bearers it shows.
    fn size(&self) -> usize
        ensures value { result ≡ length (bearers self.now) }
        ensures lawful { IsBoard (bearers self.now) };

    /// How many packets a bearer can hold.
    fn depth(&self, bearer: usize) -> usize
        ensures value { result ≡ (bearer_of (bearers self.now) bearer).depth };

    /// What it costs to take a packet from a bearer, in cycles.
    fn cost(&self, bearer: usize) -> u32
        ensures value { result ≡ (bearer_of (bearers self.now) bearer).cost }
        ensures bound { result ≤ 2000 };

    /// How many packets wait in a bearer.
    fn waiting(&self, bearer: usize) -> usize
        ensures value { result ≡ length (bearer_of (bearers self.now) bearer).waiting };

    /// Whether a bearer's signal is up.
    fn signal(&self, bearer: usize) -> bool
        ensures value { result ≡ (bearer_of (bearers self.now) bearer).signal };

    /// Puts a packet behind those that wait, which raises the signal of an armed bearer; `false` if there is no room.
    // Not a `Result` that hands the packet back: the caller has it still.
    fn offer(&mut self, bearer: usize, packet: Packet) -> bool
        ensures value { result ≡ has_room (bearer_of (bearers self.old) bearer) }
        ensures after { bearers self.new ≡ changed (bearers self.old) bearer (after_offer packet) };

    /// Takes out the oldest packet. The signal goes down when none is left.
    fn take(&mut self, bearer: usize) -> Option<Packet>
        ensures value { result ≡ slice_get (bearer_of (bearers self.old) bearer).waiting 0 }
        ensures after { bearers self.new ≡ changed (bearers self.old) bearer after_take };

    /// Arms a bearer that is disarmed. If packets wait in it, its kind tells whether its signal goes up.
    fn arm(&mut self, bearer: usize)
        ensures after { (raises : Bool) × (bearers self.new ≡ changed (bearers self.old) bearer (after_arm raises)) };

    /// Disarms a bearer; its signal is then down.
    fn disarm(&mut self, bearer: usize)
        ensures after { bearers self.new ≡ changed (bearers self.old) bearer after_disarm };
}

/// What came of a packet's way through a bearer.
// Not one `Result`: where the packet found no room, the oldest comes out all the same.
#[derive(Clone, Copy, PartialEq, Eq, Debug)]
pub struct Looped {
    /// Whether the bearer took the packet and raised its signal.
    pub raised: bool,
    /// What came out: the oldest packet then.
    pub came: Option<Packet>,
}

/// Passes a packet through a bearer, as a self-test does. The bearer is left disarmed.
pub fn loopback<B: Board>(board: &mut B, bearer: usize, packet: Packet) -> Looped
    ensures raised { result.raised ≡ has_room (bearer_of (B.bearers board.old) bearer) }
    ensures came { result.came ≡ slice_get (after_offer packet (bearer_of (B.bearers board.old) bearer)).waiting 0 }
    ensures after { B.bearers board.new ≡ changed (B.bearers board.old) bearer (λ x. after_disarm (after_take (after_offer packet x))) }
{
    board.arm(bearer);
    let raised = board.offer(bearer, packet) && board.signal(bearer);
    let came = board.take(bearer);
    board.disarm(bearer);
    Looped { raised, came }
}
