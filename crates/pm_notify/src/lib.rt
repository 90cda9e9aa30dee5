//! The notices of a history that may still be posted: written when their periods end, and kept until they expire.
#![tactic(auto)]

mod added;
mod crossing;
mod ends;
mod law;
mod names;
mod notices;
#[cfg(test)]
mod tests;

pub use added::AddedNotices;
pub use law::{kept_are_due, notices_are_told_once, notices_stay};
pub use notices::Notices;
