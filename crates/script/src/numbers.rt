ghost use Rattle.std.specs.Prelude.{◌≡◌, ◌^◌, map};
ghost use Rattle.script.specs.Numbers.{below, is_number, number, exactly};

use crate::faults::Fault;
use std::str;

/// Whether a word is decimal digits, one or more.
fn is_number(word: &[u8]) -> bool
    ensures value { result ≡ is_number word.now }
{
    !word.is_empty() && word.iter().all(|byte| byte.is_ascii_digit())
}

/// The number that a word writes.
fn number(word: &[u8]) -> Result<u64, Fault>
    ensures value { result ≡ number word.now }
{
    match str::from_utf8(word) {
        Ok(digits) if is_number(word) => digits.parse::<u64>().map_err(|_| Fault::TooLarge),
        _ => Err(Fault::NotANumber),
    }
}

/// A number that a call takes in 32 bits.
pub(crate) fn narrow(number: u64) -> Result<u32, Fault>
    ensures value { result ≡ below (2 ^ 32) number }
{
    u32::try_from(number).map_err(|_| Fault::TooLarge)
}

/// The numbers of a call that takes `N` of them.
pub(crate) fn numbers<const N: usize>(words: &[&[u8]]) -> Result<[u64; N], Fault>
    ensures value { result ≡ exactly N (map (λ w. w.now) words.now) }
{
    if words.len() != N {
        return Err(Fault::WrongCount { wanted: N });
    }
    let mut numbers = [0; N];
    for (index, word) in words.iter().enumerate() {
        numbers[index] = number(word)?;
    }
    Ok(numbers)
}
