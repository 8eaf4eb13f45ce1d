ghost use Rattle.std.specs.Prelude.{◌≡◌, ◌≢◌, [], IsOk, IfOk, IfErr, MatchResult};
ghost use Rattle.conduct.specs.Lists.{receipts_of};
ghost use Rattle.conduct.specs.Sweeps.{Sweeps};

use crate::lists::Conducted;
use crate::replies::Reply;
use board::Board;
use policy::Policy;
use receiver::{Receiver, Unspent};

/// What a list of calls left, with every receipt spent.
#[derive(Drop)]
pub struct Swept<B: Board, P: Policy> {
    pub replies: Vec<Reply>,
    pub receiver: Receiver<B, P>,
}

impl<B: Board, P: Policy> Conducted<B, P> {
    /// Spends the receipts by discard, the last first. One that is refused is handed back, with those before it; of what
    /// `conduct` leaves, none is refused.
    #[tactic(auto, using(crate::proofs::Sweeping::all_spent))]
    pub fn sweep(mut self) -> Result<Swept<B, P>, Conducted<B, P>>
        ensures spent { IfOk result (λ s. Sweeps (P.meaning self.receiver.policy) self.receiver self.receipts.items s.receiver []) }
        ensures refused { IfErr result (λ d. Sweeps (P.meaning self.receiver.policy) self.receiver self.receipts.items d.receiver d.receipts.items) }
        ensures some_left { IfErr result (λ d. d.receipts.items ≢ []) }
        ensures replies { MatchResult result (λ s. s.replies ≡ self.replies) (λ d. d.replies ≡ self.replies) }
        ensures all_out { self.receipts.items ≡ receipts_of self.receiver.state → IsOk result }
    {
        while let Some(receipt) = self.receipts.pop() {
            if let Err(unspent) = self.receiver.discard(receipt) {
                let Unspent {
                    refusal: _,
                    receipt,
                } = unspent;
                self.receipts.push_reserved(receipt);
                return Err(self);
            }
        }
        let Conducted {
            replies,
            receiver,
            receipts,
        } = self;
        receipts.destroy_empty();
        Ok(Swept { replies, receiver })
    }
}
