ghost use Rattle.std.specs.Prelude.{◌≡◌, ◌<◌, ◌≤◌, length, decimal};

use crate::texts::Text;
use itoa::Buffer;

/// How many digits `n` has.
// Beside `text_len`, which says nothing of the bounds.
#[tactic(auto, using(std::proofs::lemmas::Fmt::decimal_nonempty))]
pub fn number_len(n: u64) -> usize
    ensures value { result ≡ length (decimal n) }
    ensures low_bound { 0 < result }
    ensures high_bound { result ≤ 20 }
{
    Buffer::new().format(n).len()
}

impl Text for u64 {
    ghost text = { decimal };

    fn text_len(self) -> usize {
        number_len(self)
    }

    fn write(self, memory: &mut [u8], at: usize) -> usize {
        Buffer::new().format(self).as_bytes().write(memory, at)
    }
}
