//! The store of a producer: the items of a history in the first area of a disk. At each moment each image of the disk holds the history
//! from before the last item or that with it.
#![tactic(auto)]

mod error;
mod ledger;
mod reading;

pub use error::{AddError, OpenError};
pub use ledger::{Ledger, MOST_BYTES};

#[cfg(test)]
mod tests;
