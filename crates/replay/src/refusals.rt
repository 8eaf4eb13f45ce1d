ghost use Rattle.std.specs.Prelude.{◌≡◌};
ghost use Rattle.replay.specs.Refusals.{number_of, place_of};
ghost use Rattle.replay.specs.declared.refusals.Refusal.TheVariants as refusal;
ghost use Rattle.replay.specs.declared.refusals.ReplayError.TheVariants as error;

use capture::ReadError;
use table::TooSmall;

/// Why a capture is not replayed, or its tables are not written.
#[derive(Clone, Copy, PartialEq, Eq, Debug)]
pub enum Refusal {
    /// The capture is refused.
    Unreadable(capture::Refusal),
    /// A table has more bytes, so many, than the memory that is lent for it.
    TooSmall(usize),
}

impl Refusal {
    pub fn number(self) -> u8
        ensures value { result ≡ number_of self }
    {
        match self {
            Refusal::Unreadable(refusal) => refusal.number(),
            Refusal::TooSmall(_) => 17,
        }
    }

    /// Of a capture, the offset of the record at fault, or 0; of memory, the bytes needed.
    pub fn place(self) -> usize
        ensures value { result ≡ place_of self }
    {
        match self {
            Refusal::Unreadable(refusal) => refusal.place(),
            Refusal::TooSmall(need) => need,
        }
    }
}

/// Why a replay gave no tables: it is refused, or the capture is not, and the host's memory ran out.
#[derive(Clone, Copy, PartialEq, Eq, Debug)]
pub enum ReplayError {
    Memory,
    Refused(Refusal),
}

impl From<ReadError> for ReplayError {
    ghost use Rattle.replay.specs.Answers.{passed_on};

    ghost from_gives = { λ error r. r ≡ passed_on error };

    fn from(error: ReadError) -> ReplayError {
        match error {
            ReadError::Memory => ReplayError::Memory,
            ReadError::Refused(refusal) => ReplayError::Refused(Refusal::Unreadable(refusal)),
        }
    }
}

impl From<TooSmall> for ReplayError {
    ghost from_gives = { λ small r. r ≡ error.Refused (refusal.TooSmall small.need) };

    fn from(small: TooSmall) -> ReplayError {
        ReplayError::Refused(Refusal::TooSmall(small.need))
    }
}
