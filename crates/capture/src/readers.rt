ghost use Rattle.std.specs.Prelude.{◌≡◌};
ghost use Rattle.capture.specs.Captures.{first_reading, item, reading_after};

use crate::limits::Limits;
use crate::packets::Captured;
use crate::refusals::Refusal;
use crate::savefile::Records;
use std::marker::Model;

/// A capture that is being read, packet by packet. The bytes are lent and never copied.
#[derive(Drop)]
pub struct Reader<'a> {
    records: Records<'a>,
    limits: Limits,
}

impl<'a> Model for Reader<'a> {
    ghost use Rattle.capture.specs.Captures.{Reading};
    ghost use Rattle.capture.specs.Savefile.{contents_from};

    ghost Value = { Reading };

    ghost view = { λ r. record { contents = contents_from r.records; limits = r.limits } };
}

impl<'a> Reader<'a> {
    /// Starts to read a capture, for a board that shows so many bearers.
    #[tactic(auto, unfolding(crate::specs::Captures::contents))]
    pub fn open(bytes: &'a [u8], shown: usize) -> Result<Self, Refusal>
        ensures value { result ≡ first_reading shown bytes.now }
    {
        let limits = Limits::of(bytes, shown)?;
        let records = Records::open(bytes)?;
        Ok(Reader { records, limits })
    }

    /// The next packet, or none at the end of the file. A refusal leaves the reader where it is,
    /// so as an `Iterator` it would refuse the same record for ever.
    #[tactic(auto, using(crate::proofs::OneOn::contents_from_next))]
    pub fn next(&mut self) -> Result<Option<Captured>, Refusal>
        ensures value { result ≡ item self.old }
        ensures after { self.new ≡ reading_after result self.old }
    {
        let Some((record, behind)) = self.records.split_first()? else {
            return Ok(None);
        };
        let packet = self.limits.admit(record)?;
        self.records = behind;
        Ok(Some(packet))
    }
}
