//! What is printed of a capture's replay: one of its tables, or the refusal; and what is said of it in words.
#![tactic(auto)]

mod entry;
mod reports;
mod sayings;
#[cfg(test)]
mod tests;

pub use capture::ENOUGH;
pub use entry::report;
pub use reports::{Report, Table};
pub use sayings::words;
