//! One threshold on one sequence of values: which values cross it, and in which direction.
#![tactic(auto)]

mod direction;
mod law;
pub mod plain;
mod watch;

pub use direction::Direction;
pub use law::{flags_of_sequences, never_both};
pub use watch::Watch;

#[cfg(test)]
mod tests;
