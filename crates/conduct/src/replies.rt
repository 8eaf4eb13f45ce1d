ghost use Rattle.std.specs.Prelude.{◌≡◌};
ghost use Rattle.conduct.specs.Lists.{reply_of};

use machine::{Answer, Refusal};

/// What came of one call of a list.
#[derive(Clone, Copy, PartialEq, Eq, Debug)]
pub enum Reply {
    Accepted(Answer),
    Refused(Refusal),
    /// `finish` or `discard` of a number of which no receipt is held: no call was made.
    NoReceipt,
}

impl From<Result<Answer, Refusal>> for Reply {
    ghost from_gives = { λ outcome reply. reply ≡ reply_of outcome };

    fn from(outcome: Result<Answer, Refusal>) -> Reply {
        match outcome {
            Ok(answer) => Reply::Accepted(answer),
            Err(refusal) => Reply::Refused(refusal),
        }
    }
}
