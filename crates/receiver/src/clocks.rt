use machine::Period;

/// The open period, and what is known of those that have closed.
#[derive(Clone, Copy)]
pub struct Clock {
    /// Cycles that have gone by in the open period.
    pub elapsed: u64,
    /// Cycles that bearers have used in it.
    pub used: u64,
    /// Cycles that the application was offered in it.
    pub offered: u64,
    /// How many periods have closed.
    pub closed: u32,
    /// The record of the last one.
    pub last: Option<Period>,
}
