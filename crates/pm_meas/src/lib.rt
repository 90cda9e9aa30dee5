//! Measurements: their kinds and reductions, the catalogue that names them, and the cells that their values are folded into.
#![tactic(auto)]

mod catalogue;
mod cell;
mod def;
mod error;
mod kind;
mod line;
mod method;
pub mod plain;
mod tally;
mod words;

pub use catalogue::{Catalogue, MAX_MEASURES};
pub use cell::{Cell, MAX_COUNT, MAX_VALUE};
pub use def::Def;
pub use error::MeasError;
pub use kind::{Kind, Reduce};
pub use tally::Tally;

#[cfg(test)]
mod tests;
