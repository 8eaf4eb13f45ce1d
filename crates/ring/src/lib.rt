//! Queues in a fixed number of slots, written once for every kind of element: `Ring` over lent slots, `Queue` in slots of its own.
//! They allocate nothing, shift no element, and refuse an element only while all their slots are used.
#![tactic(auto)]

mod cursors;
mod queues;
mod rings;
#[cfg(test)]
mod tests;

pub use queues::Queue;
pub use rings::Ring;
