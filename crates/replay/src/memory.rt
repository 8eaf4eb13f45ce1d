ghost use Rattle.std.specs.Prelude.{◌≡◌};
ghost use Rattle.replay.specs.Answers.{fitted, left_in};

use crate::answers::{Replayed, Tables};
use table::{TooSmall, put};

impl Tables {
    /// Writes the tables into memory that is lent for them, if both fit. Otherwise nothing is written.
    pub fn write_into(&self, packets: &mut [u8], periods: &mut [u8]) -> Result<Replayed, TooSmall>
        ensures value { result ≡ fitted self.now.figures self.now.packets.items self.now.periods.items packets.old periods.old }
        ensures packets { packets.new ≡ left_in result self.now.packets.items packets.old }
        ensures periods { periods.new ≡ left_in result self.now.periods.items periods.old }
    {
        let (packets_len, periods_len) = (self.packets.len(), self.periods.len());
        if packets.len() < packets_len {
            return Err(TooSmall { need: packets_len });
        }
        if periods.len() < periods_len {
            return Err(TooSmall { need: periods_len });
        }
        // Neither is refused: both tables fit.
        let _ = put(packets, 0, self.packets.as_slice());
        let _ = put(periods, 0, self.periods.as_slice());
        Ok(Replayed {
            figures: self.figures,
            packets_len,
            periods_len,
        })
    }
}
