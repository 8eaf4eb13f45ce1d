ghost use Rattle.std.specs.Prelude.{◌≡◌, true, false};

use board::Packet;
use machine::Refusal;

/// Says that a packet was handed to the application. It is let go only once it is spent, by `finish` or `discard`.
pub struct Receipt {
    number: u32,
    spent: bool,
}

impl Receipt {
    /// The packet's number.
    pub fn number(&self) -> u32
        ensures value { result ≡ self.now.number }
    {
        self.number
    }

    /// The receipt of a packet that was just fetched.
    pub(crate) fn of(packet: Packet) -> Receipt
        ensures value { result ≡ record { number = packet.number; spent = false } }
    {
        Receipt {
            number: packet.number,
            spent: false,
        }
    }

    /// The receipt handed back with a refusal.
    pub(crate) fn refused(self, refusal: Refusal) -> Unspent
        ensures value { result ≡ record { refusal = refusal; receipt = self } }
    {
        Unspent {
            refusal,
            receipt: self,
        }
    }

    /// Spends the receipt, and lets it go.
    pub(crate) fn spend(mut self) {
        self.spent = true;
    }
}

impl Drop for Receipt {
    fn drop(self)
        requires spent { self.spent ≡ true }
    {
        let Receipt {
            number: _,
            spent: _,
        } = self;
    }
}

/// A receipt that could not be spent, and why.
pub struct Unspent {
    pub refusal: Refusal,
    pub receipt: Receipt,
}
