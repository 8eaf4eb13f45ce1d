ghost use Rattle.std.specs.Prelude.{◌≡◌};
ghost use Rattle.machine.specs.Standard.{standard_board};

use board::{Board, MailboxBearer, Packet, Pair, RingBearer};

/// A ring bearer of 8, a mailbox bearer of 4 and a ring bearer of 16.
pub type StandardBoard<'a> = Pair<RingBearer<'a>, Pair<MailboxBearer, RingBearer<'a>>>;

/// How many bearers the standard board shows.
pub const BEARERS: usize = 3;

/// The slots that its ring bearers keep packets in.
#[derive(Clone, Copy)]
pub struct Slots {
    first: [Packet; 8],
    third: [Packet; 16],
}

impl Slots {
    /// Slots in which no packet has been.
    pub const EMPTY: Slots = Slots {
        first: [Packet::BLANK; 8],
        third: [Packet::BLANK; 16],
    };
}

/// Puts up the standard board.
pub fn board<'a>(slots: &'a mut Slots) -> StandardBoard<'a>
    ensures value { ⟦<StandardBoard<'a> as Board>⟧.bearers result ≡ standard_board }
{
    let Slots { first, third } = slots;
    Pair(
        RingBearer::new(first),
        Pair(MailboxBearer::new(4), RingBearer::new(third)),
    )
}
