ghost use Rattle.std.specs.Prelude.{◌≡◌};
ghost use Rattle.capture.specs.Refusals.{number, place};
ghost use Rattle.capture.specs.declared.refusals.ReadError.TheVariants as error;

use std::alloc::AllocFailed;
use std::fmt;

/// Why a capture is not read. A record's fault carries the record's offset in the file.
#[derive(Clone, Copy, PartialEq, Eq, Debug)]
pub enum Refusal {
    /// The capture is longer than 65,536 bytes.
    TooLong,
    /// The file does not begin with a savefile's header.
    NoHeader,
    /// The record's header or its data runs past the file's end.
    PastEnd(usize),
    /// The record has no captured data, so it names no bearer.
    NoData(usize),
    /// The record's bearer is none of those shown.
    NotShown(usize),
    /// The record would be the 1,025th packet.
    TooMany(usize),
    /// The record's timestamp is a second or more after the first packet's.
    TooLate(usize),
    /// The packet's length is not 1 to 384 octets.
    BadLength(usize),
}

impl Refusal {
    pub fn number(self) -> u8
        ensures value { result ≡ number self }
    {
        // docs/RULES.md fixes the numbers. By a match: the discriminant of a variant with a payload cannot be cast.
        match self {
            Refusal::TooLong => 9,
            Refusal::NoHeader => 10,
            Refusal::PastEnd(_) => 11,
            Refusal::NoData(_) => 12,
            Refusal::NotShown(_) => 13,
            Refusal::TooMany(_) => 14,
            Refusal::TooLate(_) => 15,
            Refusal::BadLength(_) => 16,
        }
    }

    /// The record's offset in the file, or 0 where no record is at fault.
    pub fn place(self) -> usize
        ensures value { result ≡ place self }
    {
        // Not one trait with the other crate's refusals: the variants differ, and no code is generic over both.
        match self {
            Refusal::TooLong | Refusal::NoHeader => 0,
            Refusal::PastEnd(at)
            | Refusal::NoData(at)
            | Refusal::NotShown(at)
            | Refusal::TooMany(at)
            | Refusal::TooLate(at)
            | Refusal::BadLength(at) => at,
        }
    }
}

/// The reason in words.
impl fmt::Display for Refusal {
    ghost use Rattle.std.specs.Prelude.{Some};
    ghost use Rattle.capture.specs.Refusals.{reason};

    ghost output = { λ f. Some (reason f) };

    fn fmt<W: fmt::Write>(&self, f: &mut fmt::Formatter<W>) -> fmt::Result {
        f.write_str(match self {
            Refusal::TooLong => "it is longer than 65,536 bytes",
            Refusal::NoHeader => "it does not begin with a savefile's header",
            Refusal::PastEnd(_) => "a record runs past the end of the file",
            Refusal::NoData(_) => "a record has no captured data",
            Refusal::NotShown(_) => "a record's bearer is not shown",
            Refusal::TooMany(_) => "it has more than 1,024 packets",
            Refusal::TooLate(_) => "a packet is a second or more after the first",
            Refusal::BadLength(_) => "a packet's length is not 1 to 384 octets",
        })
    }
}

/// Why no packets came: the capture is refused, or it is not, and memory ran out.
#[derive(Clone, Copy, PartialEq, Eq, Debug)]
pub enum ReadError {
    Memory,
    Refused(Refusal),
}

impl From<Refusal> for ReadError {
    ghost from_gives = { λ refusal r. r ≡ error.Refused refusal };

    fn from(refusal: Refusal) -> ReadError {
        ReadError::Refused(refusal)
    }
}

/// For a caller that keeps packets of its own choice. [`read`](crate::read) reads on first, since the capture may be refused.
impl<T: Drop> From<AllocFailed<T>> for ReadError {
    ghost from_gives = { λ _ r. r ≡ error.Memory };

    fn from(_e: AllocFailed<T>) -> ReadError {
        ReadError::Memory
    }
}
