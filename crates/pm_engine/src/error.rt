//! Why an engine isn't opened. Offsets and lengths are in bytes.
ghost use Rattle.std.specs.Prelude.{◌≡◌};

use std::alloc::AllocError;
use thiserror::Error;

/// Why an engine isn't opened.
#[derive(Clone, Copy, Debug, PartialEq, Eq, Error)]
pub enum OpenError {
    /// The disk failed, and its count of faults rose.
    #[error("the disk failed: the store has to be opened again")]
    StoreFault,
    /// The area has over 9 bytes, and is too long or doesn't begin with the mark.
    #[error("the area is no store: it does not begin with the mark, or is too long")]
    Foreign,
    /// The item whose gate is at this offset can't be taken.
    #[error("the item whose gate is at byte {offset} can't be taken")]
    Garbled { offset: u64 },
    /// The store has this length, and would need another one, which passes the limit.
    #[error("the store has {length} bytes and would need {need}, which passes the limit")]
    StoreFull { length: u64, need: u64 },
    /// Out of memory.
    #[error("out of memory")]
    Memory,
}

impl From<AllocError> for OpenError {
    ghost use Rattle.pm_engine.specs.declared.error.OpenError.TheVariants.{Memory};

    ghost from_gives = { λ _ e. e ≡ Memory };

    fn from(_: AllocError) -> Self {
        OpenError::Memory
    }
}
