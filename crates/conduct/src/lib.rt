//! A list of calls made on a receiver, whole: every reply, the receiver, and the receipts still held.
#![tactic(auto)]

mod lists;
mod receipts;
mod replies;
mod sweeps;
#[cfg(test)]
mod tests;

pub use lists::{Conducted, NoMemory, conduct};
pub use replies::Reply;
pub use sweeps::Swept;
