ghost use Rattle.std.specs.Prelude.{◌≡◌};
ghost use Rattle.machine.specs.Standard.{four};

use machine::RawSettings;
use policy::{Fixed, Policy};

/// P, in cycles.
pub const PERIOD: u64 = 64_000;

/// P, N, S, H, L and T.
pub const SETTINGS: RawSettings = RawSettings {
    period: PERIOD,
    limit: 32_000,
    size: 32,
    high: 24,
    low: 8,
    hold: 2,
};

/// The figure of its policy, which is a fixed one.
pub const FIGURE: u32 = 4;

/// The fixed policy at 4.
pub fn policy() -> Fixed
    ensures value { ⟦<Fixed as Policy>⟧.meaning result ≡ four }
{
    Fixed::new(FIGURE)
}
