ghost use Rattle.std.specs.Prelude.{◌≡◌};
ghost use Rattle.report.specs.Report.{chosen};

use capture::Refusal;
use replay::{Figures, Tables};
use std::alloc::Global;

/// Which table of a replay is printed.
#[derive(Clone, Copy, PartialEq, Eq, Debug)]
pub enum Table {
    Packets,
    Periods,
}

impl Table {
    /// The text of this one of the two tables.
    pub(crate) fn text_in(self, tables: Tables) -> Vec<u8>
        ensures value { result.items ≡ chosen self tables.packets.items tables.periods.items }
    {
        match self {
            Table::Packets => tables.packets,
            Table::Periods => tables.periods,
        }
    }
}

/// The text to print, and what it tells of: the figures of the replay, or the refusal.
#[derive(Drop)]
pub struct Report {
    pub outcome: Result<Figures, Refusal>,
    /// In bytes, as `table` appends its rows.
    pub text: Vec<u8>,
}
