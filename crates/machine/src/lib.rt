//! The receiver as the rules define it: its calls and answers, the state machine, the ledger of packet numbers, and the
//! laws of every list of calls.
//!
//! The definitions stand in `specs/`. Code here is only what they speak of: the types of calls, answers and refusals.
#![tactic(auto)]

mod answers;
mod calls;
mod refusals;
#[cfg(test)]
mod tests;
mod theorems;

pub use answers::{Answer, Arrival, Counts, Period, Progress, Report};
pub use calls::{Call, RawSettings, Setting};
pub use refusals::Refusal;
pub use theorems::{examples, laws};
