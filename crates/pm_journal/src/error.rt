//! Why a journal refuses.
ghost use Rattle.std.specs.Prelude.{◌≡◌};

use pm_outside::Failed;
use std::alloc::AllocError;
use thiserror::Error;

/// Why a call of a journal is refused. Offsets and lengths are in bytes.
#[derive(Clone, Copy, Debug, PartialEq, Eq, Error)]
pub enum JournalError {
    /// The disk failed, and its count of faults rose.
    #[error("the disk failed: the area has to be opened again")]
    StoreFault,
    /// The area has over 9 bytes, and is longer than the limit or doesn't begin with the mark.
    #[error("the area is no journal: it does not begin with the mark, or is longer than the limit")]
    Foreign,
    /// The gate at this offset is open, and its item doesn't end within the area.
    #[error("the item whose gate is at byte {offset} does not end within the area")]
    Garbled { offset: u64 },
    /// The area has this length, and would need another one, which passes the limit.
    #[error("the area has {length} bytes and would need {need}, which passes the limit")]
    StoreFull { length: u64, need: u64 },
    /// Out of memory for the item.
    #[error("out of memory for the item")]
    Memory,
}

impl From<Failed> for JournalError {
    ghost use Rattle.pm_journal.specs.declared.error.JournalError.TheVariants.{StoreFault};

    ghost from_gives = { λ _ e. e ≡ StoreFault };

    fn from(_: Failed) -> Self {
        JournalError::StoreFault
    }
}

impl From<AllocError> for JournalError {
    ghost use Rattle.pm_journal.specs.declared.error.JournalError.TheVariants.{Memory};

    ghost from_gives = { λ _ e. e ≡ Memory };

    fn from(_: AllocError) -> Self {
        JournalError::Memory
    }
}
