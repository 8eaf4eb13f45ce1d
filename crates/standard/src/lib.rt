//! The standard receiver's board, policy and settings, as docs/RULES.md gives them for the replay.
#![tactic(auto)]

mod boards;
mod settings;
#[cfg(test)]
mod tests;

pub use boards::{BEARERS, Slots, StandardBoard, board};
pub use settings::{FIGURE, PERIOD, SETTINGS, policy};
