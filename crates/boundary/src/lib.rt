//! The library for hosts that are not Rattle: its functions over numbers and lent bytes, by the C calling convention.
#![tactic(auto)]

mod calls;
mod replays;
mod setups;
mod sizes;
mod statuses;
