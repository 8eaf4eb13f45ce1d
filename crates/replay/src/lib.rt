//! The replay of a capture: what became of each packet, and what each period offered the application.
#![tactic(auto)]

mod accounts;
mod answers;
mod entry;
mod fates;
mod memory;
mod refusals;
mod runs;
mod stages;
#[cfg(test)]
mod tests;
mod texts;

pub use answers::{FateCounts, Figures, Replayed, Tables};
pub use entry::{replay, tables};
pub use fates::{Fallen, Fate};
pub use refusals::{Refusal, ReplayError};
