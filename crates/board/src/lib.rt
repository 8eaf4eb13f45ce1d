//! Bearers of packets, and boards of them: what a receiver takes its packets from.
//!
//! A board is whatever keeps the contract of [`Board`]. Code above it is proved from that contract alone.
#![tactic(auto)]

mod boards;
mod lines;
mod mailboxes;
mod packets;
mod pairs;
mod rings;
mod signals;
mod singles;
#[cfg(test)]
mod tests;

pub use boards::{Board, Looped, MOST_BEARERS, loopback};
pub use packets::{HIGHEST_CLASS_COST, Packet, class_cost};
pub use pairs::Pair;
pub use singles::{MailboxBearer, RingBearer};
