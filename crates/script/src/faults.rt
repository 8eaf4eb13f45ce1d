ghost use Rattle.std.specs.Prelude.{◌≡◌};
ghost use Rattle.script.specs.declared.faults.ReadError.TheVariants as error;

use std::alloc::{AllocError, AllocFailed};

/// What is wrong with a line.
#[derive(Clone, Copy, PartialEq, Eq, Debug)]
pub enum Fault {
    /// The first word is neither `bearer` nor `policy`, and no call is named so.
    UnknownCall,
    /// The line says something of the board or the policy where none may: behind a call, or among calls alone.
    OutOfPlace,
    /// The second word is that of no kind of bearer.
    UnknownBearerKind,
    /// The second word is that of no kind of policy.
    UnknownPolicyKind,
    /// The call or the kind takes so many numbers, and the line has more or fewer.
    WrongCount { wanted: usize },
    /// A word where a number should stand is not digits alone.
    NotANumber,
    /// A number is larger than the call or the kind takes.
    TooLarge,
    /// It would be the ninth bearer.
    NinthBearer,
    /// A line before it says the policy.
    SecondPolicy,
}

/// The first line that cannot be read.
#[derive(Clone, Copy, PartialEq, Eq, Debug)]
pub struct Unread {
    /// The line's number, counted from 1.
    pub line: usize,
    pub fault: Fault,
}

/// Why nothing came: a line cannot be read, or memory ran out, which says nothing of the text.
#[derive(Clone, Copy, PartialEq, Eq, Debug)]
pub enum ReadError {
    Unread(Unread),
    NoMemory,
}

impl From<AllocError> for ReadError {
    ghost from_gives = { λ _ r. r ≡ error.NoMemory };

    fn from(_e: AllocError) -> ReadError {
        ReadError::NoMemory
    }
}

impl<T: Drop> From<AllocFailed<T>> for ReadError {
    ghost from_gives = { λ _ r. r ≡ error.NoMemory };

    fn from(_e: AllocFailed<T>) -> ReadError {
        ReadError::NoMemory
    }
}
