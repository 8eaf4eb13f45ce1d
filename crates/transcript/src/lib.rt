//! A text of calls, made on a new receiver, and what is printed of them: a line for each call.
#![tactic(auto)]

mod failures;
mod lines;
mod runs;
mod scripts;
#[cfg(test)]
mod tests;
mod texts;

pub use failures::{Failure, reason};
pub use runs::{run_on, run_over};
pub use scripts::run;
pub use texts::LONGEST;
