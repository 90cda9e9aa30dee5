//! Why a stored item isn't taken.
ghost use Rattle.std.specs.Prelude.{◌≡◌};

use std::alloc::AllocError;
use thiserror::Error;

/// Why a stored item isn't taken.
#[derive(Clone, Copy, Debug, PartialEq, Eq, Error)]
pub enum ReplayError {
    /// The items before it don't permit it.
    #[error("the items before it don't permit the item")]
    NotPermitted,
    /// It is of a subscription, which isn't held yet.
    #[error("the item is of a subscription, which is not held yet")]
    Unheld,
    /// Out of memory for it.
    #[error("out of memory for the item")]
    Memory,
}

impl From<AllocError> for ReplayError {
    ghost use Rattle.pm_replay.specs.declared.error.ReplayError.TheVariants.{Memory};

    ghost from_gives = { λ _ e. e ≡ Memory };

    fn from(_: AllocError) -> Self {
        ReplayError::Memory
    }
}
