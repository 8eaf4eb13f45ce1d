ghost use Rattle.std.specs.Prelude.{◌≡◌, ◌+◌, ◌≤◌, ◌<◌, length, Err};
ghost use Rattle.capture.specs.Numbers.{word};
ghost use Rattle.capture.specs.Savefile.{header_order, all_records, split_first};

use crate::orders::ByteOrder;
use crate::packets::{Captured, Record, SECOND};
use crate::refusals::Refusal;
use std::marker::Model;

const HEADER: usize = 24;

const MAGIC: u32 = 0xA1B2_C3D4;

const RECORD_HEADER: usize = 16;

/// The records of a savefile from an offset on. The bytes are lent and never copied.
#[derive(Drop)]
pub(crate) struct Records<'a> {
    bytes: &'a [u8],
    order: ByteOrder,
    /// Where the first of them begins. A refusal tells this offset, which a slice that shrinks would lose.
    at: usize,
}

impl<'a> Model for Records<'a> {
    ghost use Rattle.std.specs.Prelude.{◌≤◌, length};
    ghost use Rattle.capture.specs.Savefile.{Records as Held};

    ghost Value = { Held };

    ghost view = { λ r. record { bytes = r.bytes.now; order = r.order; at = r.at } };

    ghost invariant = { λ r. r.at ≤ length r.bytes.now };
}

/// The byte order that a savefile's header tells, if the bytes begin with one.
fn byte_order(bytes: &[u8]) -> Option<ByteOrder>
    ensures value { result ≡ header_order bytes.now }
{
    if bytes.len() < HEADER {
        return None;
    }
    [ByteOrder::Big, ByteOrder::Little].into_iter().find(|order| {
        order.number_at::<4>(bytes, 0) == MAGIC
            && order.number_at::<2>(bytes, 4) == 2
            && order.number_at::<2>(bytes, 6) == 4
    })
}

impl<'a> Records<'a> {
    /// The records of a savefile, behind its header.
    pub(crate) fn open(bytes: &'a [u8]) -> Result<Self, Refusal>
        ensures value { result ≡ all_records bytes.now }
    {
        let order = byte_order(bytes).ok_or(Refusal::NoHeader)?;
        Ok(Records {
            bytes,
            order,
            at: HEADER,
        })
    }

    /// The first record and those behind it, or none at the end of the file.
    pub(crate) fn split_first(&self) -> Result<Option<(Record, Self)>, Refusal>
        ensures value { result ≡ split_first self.now }
    {
        let at = self.at;
        let left = self.bytes.len() - at;
        if left == 0 {
            return Ok(None);
        }
        if left < RECORD_HEADER {
            return Err(Refusal::PastEnd(at));
        }
        let captured = self.word(8) as usize;
        if captured > left - RECORD_HEADER {
            return Err(Refusal::PastEnd(at));
        }
        if captured == 0 {
            return Err(Refusal::NoData(at));
        }
        let packet = Captured {
            bearer: usize::from(self.bytes[at + RECORD_HEADER]),
            length: self.word(12).saturating_sub(1),
            microseconds: u64::from(self.word(0)) * SECOND + u64::from(self.word(4)),
        };
        let behind = Records {
            bytes: self.bytes,
            order: self.order,
            at: at + RECORD_HEADER + captured,
        };
        Ok(Some((Record { at, packet }, behind)))
    }

    /// The 32-bit number so many bytes into the first record's header.
    fn word(&self, into: usize) -> u32
        requires { self.now.at + into + 4 ≤ length self.now.bytes }
        ensures value { result ≡ word self.now.order self.now.bytes (self.now.at + into) }
    {
        self.order.number_at::<4>(self.bytes, self.at + into)
    }
}
