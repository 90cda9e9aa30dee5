//! Why bytes are refused.
ghost use Rattle.std.specs.Prelude.{◌≡◌};

use std::alloc::AllocError;
use thiserror::Error;

/// Why a store's bytes give no item.
#[derive(Clone, Copy, Debug, PartialEq, Eq, Error)]
pub enum StoreError {
    /// The bytes are no item's.
    #[error("the bytes are not those of a stored item")]
    Bad,
    /// Out of memory for the item.
    #[error("out of memory for the item")]
    Memory,
}

impl From<AllocError> for StoreError {
    ghost use Rattle.pm_store.specs.declared.error.StoreError.TheVariants.{Memory};

    ghost from_gives = { λ _ e. e ≡ Memory };

    fn from(_: AllocError) -> Self {
        StoreError::Memory
    }
}
