ghost use Rattle.std.specs.Prelude.{◌≡◌};
ghost use Rattle.policy.specs.Quotas.{cut_figure};

use policy::Fixed;

/// What a bearer is.
#[derive(Clone, Copy, PartialEq, Eq, Debug)]
pub enum BearerKind {
    Ring,
    Mailbox,
}

/// A bearer of a board, before it is put up.
#[derive(Clone, Copy, PartialEq, Eq, Debug)]
pub struct BearerSetup {
    pub kind: BearerKind,
    /// As asked for: the kind cuts it.
    pub depth: usize,
    /// Whether a packet waits in it, if there is room for one, before a receiver is put up.
    pub is_occupied: bool,
}

/// A batch policy.
#[derive(Clone, Copy, PartialEq, Eq, Debug)]
pub enum PolicySetup {
    /// As asked for: the policy cuts it.
    Fixed { figure: u64 },
    Backlog,
}

/// The fixed policy of this figure, cut into 1 to 16.
pub fn fixed(figure: u64) -> Fixed
    ensures value { result.figure ≡ cut_figure figure }
{
    Fixed::new(u32::try_from(figure).unwrap_or(u32::MAX))
}
