ghost use Rattle.policy.specs.Quotas.{backlog_batches};
ghost use Rattle.std.proofs.Common.{rules};

use crate::Policy;

/// Allows one packet more for every two that wait, up to 8.
#[derive(Clone, Copy)]
pub struct Backlog;

impl Policy for Backlog {
    const GREATEST: u32 = 8;

    ghost GREATEST = { 8 };

    ghost meaning = { λ _. backlog_batches };

    ghost range = { Prim.search rules };

    ghost greatest = { Prim.search rules };

    ghost bounds = { Prim.search rules };

    fn quota(&self, _bearer: usize, waiting: usize) -> u32 {
        // Halved first, so that the sum fits for every `waiting`.
        (1 + waiting / 2).min(Self::GREATEST as usize) as u32
    }
}
