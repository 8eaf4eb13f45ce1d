ghost use Rattle.std.specs.Prelude.{◌≡◌, map};
ghost use Rattle.script.specs.Calls.{spelling, configure, arrive, call};

use crate::faults::Fault;
use crate::numbers::{narrow, numbers};
use machine::{Call, RawSettings};

/// The name of a call.
#[derive(Clone, Copy)]
pub(crate) enum Name {
    Configure,
    Arrive,
    Step,
    Work,
    Fetch,
    Finish,
    Discard,
    Tell,
}

impl Name {
    pub(crate) fn text(self) -> &'static str
        ensures value { result.now ≡ spelling self }
    {
        match self {
            Name::Configure => "configure",
            Name::Arrive => "arrive",
            Name::Step => "step",
            Name::Work => "work",
            Name::Fetch => "fetch",
            Name::Finish => "finish",
            Name::Discard => "discard",
            Name::Tell => "tell",
        }
    }

    /// The call of this name, with the numbers that the words behind it write.
    pub(crate) fn call(self, words: &[&[u8]]) -> Result<Call, Fault>
        ensures value { result ≡ call self (map (λ w. w.now) words.now) }
    {
        Ok(match self {
            Name::Configure => configure(numbers(words)?),
            Name::Arrive => arrive(numbers(words)?)?,
            Name::Step => {
                let [] = numbers::<0>(words)?;
                Call::Step
            }
            Name::Work => {
                let [cycles] = numbers::<1>(words)?;
                Call::Work(cycles)
            }
            Name::Fetch => {
                let [] = numbers::<0>(words)?;
                Call::Fetch
            }
            Name::Finish => {
                let [receipt] = numbers::<1>(words)?;
                Call::Finish(narrow(receipt)?)
            }
            Name::Discard => {
                let [receipt] = numbers::<1>(words)?;
                Call::Discard(narrow(receipt)?)
            }
            Name::Tell => {
                let [] = numbers::<0>(words)?;
                Call::Tell
            }
        })
    }
}

fn configure(numbers: [u64; 6]) -> Call
    ensures value { result ≡ configure numbers }
{
    let [period, limit, size, high, low, hold] = numbers;
    Call::Configure(RawSettings {
        period,
        limit,
        size,
        high,
        low,
        hold,
    })
}

fn arrive(numbers: [u64; 3]) -> Result<Call, Fault>
    ensures value { result ≡ arrive numbers }
{
    let [bearer, length, tag] = numbers;
    Ok(Call::Arrive {
        bearer: bearer as usize,
        length: length as usize,
        tag: narrow(tag)?,
    })
}
