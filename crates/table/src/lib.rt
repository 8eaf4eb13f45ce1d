//! Decimal numbers and rows of RFC 4180 tables, written into memory that the caller lends; rows are appended to owned texts too.
//! Each is written whole or not at all, so a refused call leaves the memory, or the owned text, as it was.
#![tactic(auto)]

mod fields;
mod memory;
mod numbers;
mod owned;
mod rows;
#[cfg(test)]
mod tests;
mod texts;

pub use fields::{Field, Word};
pub use memory::{TooSmall, put};
pub use numbers::number_len;
pub use owned::push_row;
pub use texts::text_len;
