//! A list of items in an area of a disk. A stop at any moment leaves the list with the last item or without it.
#![tactic(auto)]

mod appending;
mod error;
mod item;
mod journal;
mod opening;
mod phase;
mod reading;

pub use error::JournalError;
pub use item::Item;
pub use journal::Journal;

#[cfg(test)]
mod tests;
