ghost use Rattle.std.specs.Prelude.{◌≡◌};
ghost use Rattle.capture.specs.Limits.{first_limits, is_late, admission, limits_after};

use crate::packets::{Captured, Record, SECOND};
use crate::refusals::Refusal;

const LONGEST: usize = 65_536;

/// One byte more than a capture may have. A program reads no more of its input: that is refused by then, whatever follows.
pub const ENOUGH: u64 = LONGEST as u64 + 1;

// By the rules. With fewer, a longer capture would pass for one that ends there.
const _: () = prove!(ENOUGH == 65_537);

const PACKETS: usize = 1_024;

/// What is asked of a capture, whatever its format, and what is known for it of the packets so far.
#[derive(Clone, Copy)]
pub(crate) struct Limits {
    /// How many bearers the board shows.
    shown: usize,
    /// How many packets may still come.
    room: usize,
    /// The first packet's timestamp, once it is read.
    first: Option<u64>,
}

impl Limits {
    /// The limits of a capture of which nothing is read yet, unless it is too long.
    pub(crate) fn of(bytes: &[u8], shown: usize) -> Result<Self, Refusal>
        ensures value { result ≡ first_limits shown bytes.now }
    {
        if bytes.len() > LONGEST {
            return Err(Refusal::TooLong);
        }
        Ok(Limits {
            shown,
            room: PACKETS,
            first: None,
        })
    }

    fn is_late(&self, microseconds: u64) -> bool
        ensures value { result ≡ is_late self.now.first microseconds }
    {
        self.first
            .is_some_and(|first| microseconds.saturating_sub(first) >= SECOND)
    }

    /// Counts the packet in, if it passes every check.
    pub(crate) fn admit(&mut self, candidate: Record) -> Result<Captured, Refusal>
        ensures value { result ≡ admission self.old candidate }
        ensures after { self.new ≡ limits_after result self.old }
    {
        let Record { at, packet } = candidate;
        if packet.bearer >= self.shown {
            return Err(Refusal::NotShown(at));
        }
        if self.room == 0 {
            return Err(Refusal::TooMany(at));
        }
        if self.is_late(packet.microseconds) {
            return Err(Refusal::TooLate(at));
        }
        if !(1..=384).contains(&packet.length) {
            return Err(Refusal::BadLength(at));
        }
        self.room -= 1;
        self.first.get_or_insert(packet.microseconds);
        Ok(packet)
    }
}
