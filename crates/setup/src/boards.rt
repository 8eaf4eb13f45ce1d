ghost use Rattle.std.specs.Prelude.{◌≡◌, ◌≤◌, false, true, [], ◌∷◌, drop, length, map, MatchOption};
ghost use Rattle.setup.specs.Boards.{optional_bearers};
ghost use Rattle.setup.specs.Setups.{bearer_of, is_board};

use crate::bearers::AnyBearer;
use crate::nested::Before;
use crate::setups::{BearerKind, BearerSetup};
use board::{Board, MOST_BEARERS, MailboxBearer, Packet, Pair, RingBearer};

/// No ring bearer uses more slots than this.
const MOST_SLOTS: usize = 256;

type BearerSlots = [Packet; MOST_SLOTS];

type FourSlots = (BearerSlots, BearerSlots, BearerSlots, BearerSlots);

/// The slots of a board's ring bearers: as many for each bearer as a ring bearer can use.
pub type Slots = (FourSlots, FourSlots);

const BLANK: BearerSlots = [Packet::BLANK; MOST_SLOTS];

const FOUR_BLANK: FourSlots = (BLANK, BLANK, BLANK, BLANK);

/// Slots in which no packet has been.
pub const NO_PACKETS: Slots = (FOUR_BLANK, FOUR_BLANK);

/// The packet that waits in an occupied bearer.
const WAITING: Packet = Packet {
    number: 0,
    length: 1,
    tag: 0,
};

type FourBefore<'a, B> = Before<'a, Before<'a, Before<'a, Before<'a, B>>>>;

/// A board of one to eight bearers, each of any kind: nested pairs, each bearer before all behind it.
pub type AnyBoard<'a> = FourBefore<'a, FourBefore<'a, AnyBearer<'a>>>;

/// A bearer just put up, with the packet that waits in it.
fn put_up_one<'a>(bearer: BearerSetup, slots: &'a mut BearerSlots) -> AnyBearer<'a>
    ensures value { ⟦<AnyBearer<'a> as Board>⟧.bearers result ≡ bearer_of bearer ∷ [] }
{
    let mut board = match bearer.kind {
        BearerKind::Ring => {
            let depth = bearer.depth.min(MOST_SLOTS);
            AnyBearer::Ring(RingBearer::new(&mut slots[..depth]))
        }
        BearerKind::Mailbox => AnyBearer::Mailbox(MailboxBearer::new(bearer.depth)),
    };
    if bearer.is_occupied {
        // Where there is no room, none waits.
        let _ = board.offer(0, WAITING);
    }
    board
}

/// Puts up the first of the bearers before the others, which may be none. Without a first there is no board.
fn put_before<'a, B: Board + Drop>(
    bearers: &[BearerSetup],
    slots: &'a mut BearerSlots,
    others: Option<B>,
) -> Option<Before<'a, B>>
    requires few { length bearers.now ≤ MOST_BEARERS }
    requires others { optional_bearers B.bearers others ≡ map bearer_of (drop 1 bearers.now) }
    ensures value { optional_bearers ⟦<Before<'a, B> as Board>⟧.bearers result ≡ map bearer_of bearers.now }
{
    let first = put_up_one(*bearers.first()?, slots);
    Some(match others {
        None => Before::Alone(first),
        Some(others) => Before::Others(Pair(first, others)),
    })
}

/// As `put_before`, of the first four.
fn put_four_before<'a, B: Board + Drop>(
    bearers: &[BearerSetup],
    slots: &'a mut FourSlots,
    others: Option<B>,
) -> Option<FourBefore<'a, B>>
    requires few { length bearers.now ≤ MOST_BEARERS }
    requires others { optional_bearers B.bearers others ≡ map bearer_of (drop 4 bearers.now) }
    ensures value { optional_bearers ⟦<FourBefore<'a, B> as Board>⟧.bearers result ≡ map bearer_of bearers.now }
{
    let others = put_before(from(bearers, 3), &mut slots.3, others);
    let others = put_before(from(bearers, 2), &mut slots.2, others);
    let others = put_before(from(bearers, 1), &mut slots.1, others);
    put_before(bearers, &mut slots.0, others)
}

/// The bearers from a number on.
fn from(bearers: &[BearerSetup], number: usize) -> &[BearerSetup]
    ensures value { result.now ≡ drop number bearers.now }
{
    bearers.get(number..).unwrap_or(&[])
}

/// Puts up a board of these bearers, or none, where they are none or too many for a board.
pub fn put_up<'a>(bearers: &[BearerSetup], slots: &'a mut Slots) -> Option<AnyBoard<'a>>
    ensures value { MatchOption result (is_board bearers.now ≡ false) (λ board. (is_board bearers.now ≡ true) × (⟦<AnyBoard<'a> as Board>⟧.bearers board ≡ map bearer_of bearers.now)) }
{
    if bearers.len() > MOST_BEARERS {
        return None;
    }
    let last = put_four_before(from(bearers, 4), &mut slots.1, None::<AnyBearer>);
    put_four_before(bearers, &mut slots.0, last)
}
