ghost use Rattle.std.specs.Prelude.{◌≡◌, ◌≤◌};
ghost use Rattle.std.specs.List.Sorted.{IsNonDecreasing};
ghost use Rattle.board.specs.Costs.{class_costs, cost_of_length, highest_class_cost};

/// A packet, as a bearer holds it.
#[derive(Clone, Copy, PartialEq, Eq, Debug)]
pub struct Packet {
    pub number: u32,
    /// Octets, 1 to 384.
    pub length: u16,
    /// The host's own; nothing here looks at it.
    pub tag: u32,
}

impl Packet {
    /// What stands in a slot in which no packet has been.
    pub const BLANK: Packet = Packet {
        number: 0,
        length: 0,
        tag: 0,
    };
}

/// The class cost of the longest packets, in cycles.
pub const HIGHEST_CLASS_COST: u32 = 1_360;

const CLASS_COSTS: [u32; 12] = [
    420,
    510,
    590,
    680,
    760,
    850,
    930,
    1020,
    1100,
    1190,
    1270,
    HIGHEST_CLASS_COST,
];

/// The cycles that it costs to take in a packet of this length.
/// A length of 0 counts as the shortest class, one above 384 as the longest.
pub fn class_cost(length: u16) -> u32
    ensures value { result ≡ cost_of_length length }
    ensures rising { IsNonDecreasing class_costs }
    ensures bound { result ≤ highest_class_cost }
{
    let class = length.saturating_sub(1) / 32;
    CLASS_COSTS[usize::from(class.min(11))]
}
