//! Reading captures: what a capture file says of the packets that a board received.
#![tactic(auto)]

mod entry;
mod limits;
mod orders;
mod packets;
mod readers;
mod refusals;
mod savefile;
#[cfg(test)]
mod tests;

pub use entry::read;
pub use limits::ENOUGH;
pub use orders::ByteOrder;
pub use packets::Captured;
pub use readers::Reader;
pub use refusals::{ReadError, Refusal};
