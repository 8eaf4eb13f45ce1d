ghost use Rattle.std.specs.Prelude.{◌≤◌, ◌<◌};

use machine::{RawSettings, Setting};

/// The six settings, each in its range.
#[derive(Clone, Copy)]
pub struct Settings {
    pub period: u64,
    pub limit: u64,
    pub size: usize,
    pub high: usize,
    pub low: usize,
    pub hold: u64,
    ghost ranges: { (1000 ≤ period) × (period ≤ 1000000000) × (1 ≤ limit) × (limit ≤ period) × (1 ≤ size) × (size ≤ 64) × (1 ≤ high) × (high ≤ size) × (low < high) × (1 ≤ hold) × (hold ≤ 1000) },
}

impl Settings {
    ghost use Rattle.std.specs.Prelude.{◌≡◌, IfOk};
    ghost use Rattle.std.specs.Option.{option_map};
    ghost use Rattle.std.specs.Result.{result_err};
    ghost use Rattle.machine.specs.Checks.{first_refusal};
    ghost use Rattle.machine.specs.Refusals.{bad_setting};
    ghost use Rattle.machine.specs.Settings.{settings_checks, settings_from};
    ghost use Rattle.receiver.specs.Settings.{settings_of};

    /// The settings of these numbers, or the first of them that is out of its range.
    pub fn new(numbers: RawSettings) -> Result<Settings, Setting>
        ensures value { IfOk result (λ s. settings_of s ≡ settings_from numbers) }
        ensures first { option_map bad_setting (result_err result) ≡ first_refusal (settings_checks numbers) }
    {
        let RawSettings {
            period,
            limit,
            size,
            high,
            low,
            hold,
        } = numbers;
        if !(1_000..=1_000_000_000).contains(&period) {
            return Err(Setting::Period);
        }
        if !(1..=period).contains(&limit) {
            return Err(Setting::Limit);
        }
        if !(1..=64).contains(&size) {
            return Err(Setting::Size);
        }
        if !(1..=size).contains(&high) {
            return Err(Setting::High);
        }
        if low >= high {
            return Err(Setting::Low);
        }
        if !(1..=1_000).contains(&hold) {
            return Err(Setting::Hold);
        }
        Ok(Settings {
            period,
            limit,
            size: size as usize,
            high: high as usize,
            low: low as usize,
            hold,
        })
    }
}
