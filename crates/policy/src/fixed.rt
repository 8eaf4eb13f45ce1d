ghost use Rattle.std.specs.Prelude.{◌≡◌, ◌≤◌};
ghost use Rattle.policy.specs.Quotas.{cut_figure, fixed_batches};
ghost use Rattle.policy.specs.declared.fixed.TheConstants.{MOST};
ghost use Rattle.std.proofs.Common.{rules};

use crate::Policy;

const MOST: u32 = 16;

/// Allows every bearer the same batch, however many packets wait.
#[derive(Clone, Copy)]
pub struct Fixed {
    figure: u32,
    ghost cut: { (1 ≤ figure) × (figure ≤ MOST) },
}

impl Fixed {
    /// A policy of `figure` packets, cut into 1 to 16.
    pub fn new(figure: u32) -> Fixed
        ensures value { result.figure ≡ cut_figure figure }
    {
        let figure = figure.clamp(1, MOST);
        Fixed { figure }
    }
}

impl Policy for Fixed {
    const GREATEST: u32 = MOST;

    ghost GREATEST = { MOST };

    ghost meaning = { λ p. fixed_batches p.figure };

    ghost range = { Prim.search rules };

    ghost greatest = { Prim.search rules };

    ghost bounds = { Prim.search rules };

    fn quota(&self, _bearer: usize, _waiting: usize) -> u32 {
        self.figure
    }
}
