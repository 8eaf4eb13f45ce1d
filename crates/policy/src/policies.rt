ghost use Rattle.std.specs.Prelude.{◌≡◌, ℕ, ◌≤◌};
ghost use Rattle.policy.specs.Batches.{Batches, IsBounded};

/// Says how many packets a grant may take, by the bearer's number and the packets waiting there.
///
/// A quota lies in 1 to `GREATEST`, and is the same when it is asked for again.
/// Code above a policy may use no more of it than its meaning and the bounds that it keeps.
pub trait Policy {
    /// The greatest batch M, which is 1 to 64.
    const GREATEST: u32;

    /// The same constant, as clauses name it.
    ghost GREATEST: { ℕ };

    /// What the policy means. The quota is a function, so the same question always has the same answer.
    ghost meaning: { Self → Batches };

    /// How many packets a grant to the bearer numbered `bearer` may take while `waiting` packets wait there.
    fn quota(&self, bearer: usize, waiting: usize) -> u32
        ensures value { result ≡ (meaning self.now).quota bearer waiting };

    ghost range: { (1 ≤ GREATEST) × (GREATEST ≤ 64) };

    ghost greatest: { (p : Self) → (meaning p).greatest ≡ GREATEST };

    ghost bounds: { (p : Self) → IsBounded (meaning p) };
}
