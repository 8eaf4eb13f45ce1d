//! The text side of the program `calls`: what a text says, and what is said of each of its calls.
#![tactic(auto)]

mod answers;
mod calls;
mod entry;
mod faults;
mod keywords;
mod numbers;
mod refusals;
mod scripts;
mod setups;
#[cfg(test)]
mod tests;
mod words;

pub use answers::answer;
pub use entry::{read, read_script};
pub use faults::{Fault, ReadError, Unread};
pub use refusals::{NO_RECEIPT, refusal, unread};
pub use scripts::Script;
