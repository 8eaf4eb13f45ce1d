//! The receiver that a node runs, over any board and any batch policy.
//!
//! Each call answers and leaves what the state machine of `machine` does, and takes every input.
#![tactic(auto)]

mod calls;
mod checks;
mod clocks;
mod cores;
mod ends;
mod gates;
mod grants;
mod moves;
mod receipts;
mod receivers;
mod settings;
#[cfg(test)]
mod tests;

pub use cores::MOST_OUT;
pub use receipts::{Receipt, Unspent};
pub use receivers::Receiver;
pub use settings::Settings;
