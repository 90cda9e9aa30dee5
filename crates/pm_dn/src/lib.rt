//! Distinguished names of managed objects, and the tree of the objects of an inventory.
#![tactic(auto)]

mod containment;
mod dn;
mod error;
mod object;
mod pieces;
mod places;
pub mod plain;
mod refusal;
#[cfg(test)]
mod tests;
mod tree;

pub use dn::Dn;
pub use error::{DnError, TreeError};
pub use refusal::{NAME_BYTES, NAME_PARTS};
pub use tree::{MAX_OBJECTS, Tree};
