//! Batch policies: how many of a bearer's waiting packets one grant may take.
#![tactic(auto)]

mod backlog;
mod fixed;
mod policies;
#[cfg(test)]
mod tests;

pub use backlog::Backlog;
pub use fixed::Fixed;
pub use policies::Policy;
