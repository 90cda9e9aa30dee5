//! What a store keeps, as bytes.
//!
//!     bytes   what
//!     1       the kind, from 1 to 10
//!     8       the moment
//!     ..      the fields of the kind
//!
//! Numbers have their greatest byte first. An id and a path have a byte of length before them, a body and an inventory's text four.
#![tactic(auto)]

mod cells;
mod cursors;
mod decoding;
mod encoding;
mod error;
mod fitting;
mod item;
mod law;
mod numbers;
mod reading;
mod rows;

pub use cells::Cells;
pub use cursors::Cursors;
pub use decoding::decode;
pub use encoding::encode;
pub use error::StoreError;
pub use item::{Item1, VERSION};
pub use law::{cursors_of_each, one_item};

#[cfg(test)]
mod tests;
