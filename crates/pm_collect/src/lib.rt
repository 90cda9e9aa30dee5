//! A collector of report files: which are wanted and which are held.
#![tactic(auto)]

mod collector;
mod error;
mod item;
mod names;
mod reading;
mod report;

pub use collector::Collector;
pub use error::CollectError;
pub use names::{Names, Place};

#[cfg(test)]
mod tests;
