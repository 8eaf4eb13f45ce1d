ghost use Rattle.std.specs.Prelude.{◌≡◌};
ghost use Rattle.machine.specs.Refusals.{number_of, place_of, bad_setting};

use crate::calls::Setting;

/// Why a receiver refuses a call.
#[derive(Clone, Copy, PartialEq, Eq, Debug)]
pub enum Refusal {
    /// A setting is outside its range: the first such, by its place, 1 to 6. See [`Setting`].
    BadSetting(u8),
    /// The bearers' limit and the grant bound together are above the period.
    NoShare,
    /// The board does not show this bearer.
    NotShown(usize),
    /// The length is not 1 to 384 octets.
    BadLength(usize),
    /// The work is of no cycles, or of more than a period has.
    BadWork,
    NotConfigured,
    AlreadyConfigured,
    /// A packet waits on the board, in this bearer and in none before it.
    PacketWaits(usize),
    /// 1,000,000,000 packets are numbered or periods closed.
    Retired,
    /// The bearers have used up their limit in this period.
    LimitUsed,
    /// The hold has not ended.
    OnHold,
    /// The poll list is empty.
    NoneListed,
    /// The work goes past the end of the period, which has this many cycles left.
    PastPeriod(u64),
    /// The queue is empty.
    NoneQueued,
    /// Sixteen packets are out.
    AllOut,
    /// The receipt's number is not out.
    NotOut,
}

impl Refusal {
    pub fn number(self) -> u8
        ensures value { result ≡ number_of self }
    {
        // docs/RULES.md fixes the numbers. By a match: the discriminant of a variant with a payload cannot be cast.
        match self {
            Refusal::BadSetting(_) => 1,
            Refusal::NoShare => 2,
            Refusal::NotShown(_) => 4,
            Refusal::BadLength(_) => 5,
            Refusal::BadWork => 6,
            Refusal::NotConfigured => 20,
            Refusal::AlreadyConfigured => 21,
            Refusal::PacketWaits(_) => 22,
            Refusal::Retired => 23,
            Refusal::LimitUsed => 24,
            Refusal::OnHold => 25,
            Refusal::NoneListed => 26,
            Refusal::PastPeriod(_) => 27,
            Refusal::NoneQueued => 28,
            Refusal::AllOut => 29,
            Refusal::NotOut => 30,
        }
    }

    /// The setting, bearer, length or cycles at fault, or 0 where none is named.
    pub fn place(self) -> u64
        ensures value { result ≡ place_of self }
    {
        // Not one trait with `capture`'s refusals: the variants differ, and no code is generic over both.
        match self {
            Refusal::BadSetting(setting) => u64::from(setting),
            Refusal::NotShown(bearer) | Refusal::PacketWaits(bearer) => bearer as u64,
            Refusal::BadLength(length) => length as u64,
            Refusal::PastPeriod(left) => left,
            _ => 0,
        }
    }
}

impl From<Setting> for Refusal {
    ghost from_gives = { λ setting r. r ≡ bad_setting setting };

    fn from(setting: Setting) -> Refusal {
        Refusal::BadSetting(setting as u8)
    }
}
