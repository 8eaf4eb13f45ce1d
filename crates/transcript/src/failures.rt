ghost use Rattle.std.specs.Prelude.{◌≡◌, IfOk, string_bytes};
ghost use Rattle.transcript.specs.Failures.{failure_of, failure_text};
ghost use Rattle.transcript.specs.declared.failures.Failure.TheVariants as failure;

use script::{ReadError, Unread, unread};
use std::alloc::{AllocError, Global};

/// Why no call was made, or none is told of.
#[derive(Clone, Copy, PartialEq, Eq, Debug)]
pub enum Failure {
    /// The text has more bytes than `LONGEST`.
    TooLong,
    /// A line cannot be read.
    Unread(Unread),
    /// Memory ran out, which says nothing of the text.
    NoMemory,
}

impl From<ReadError> for Failure {
    ghost from_gives = { λ error failure. failure ≡ failure_of error };

    fn from(error: ReadError) -> Failure {
        match error {
            ReadError::Unread(unread) => Failure::Unread(unread),
            ReadError::NoMemory => Failure::NoMemory,
        }
    }
}

impl From<AllocError> for Failure {
    ghost from_gives = { λ _ r. r ≡ failure.NoMemory };

    fn from(_e: AllocError) -> Failure {
        Failure::NoMemory
    }
}

/// Why there are no answers, as one line without its end.
pub fn reason(alloc: Global, failure: Failure) -> Result<String, AllocError>
    ensures value { IfOk result (λ text. string_bytes text ≡ failure_text failure) }
{
    match failure {
        Failure::TooLong => String::from_str(alloc, "the text is above 1048576 bytes"),
        Failure::Unread(line) => unread(alloc, line),
        Failure::NoMemory => String::from_str(alloc, "out of memory"),
    }
}
