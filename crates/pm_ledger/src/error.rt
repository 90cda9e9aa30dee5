//! Why a ledger refuses. Offsets and lengths are in bytes.
use thiserror::Error;

/// Why an item isn't added.
#[derive(Clone, Copy, Debug, PartialEq, Eq, Error)]
pub enum AddError {
    /// The disk failed, and its count of faults rose. The store has to be opened again.
    #[error("the disk failed: the store has to be opened again")]
    StoreFault,
    /// The store has this length, and would need another one, which passes the limit.
    #[error("the store has {length} bytes and would need {need}, which passes the limit")]
    StoreFull { length: u64, need: u64 },
}

/// Why a store isn't opened, or an item not told.
#[derive(Clone, Copy, Debug, PartialEq, Eq, Error)]
pub enum OpenError {
    /// The disk failed, and its count of faults rose.
    #[error("the disk failed: the store has to be opened again")]
    StoreFault,
    /// The area has over 9 bytes, and is too long or doesn't begin with the mark.
    #[error("the area is no store: it does not begin with the mark, or is too long")]
    Foreign,
    /// The gate at this offset is open, and its item doesn't end within the area, or its bytes are those of no item.
    #[error("the item whose gate is at byte {offset} can't be read")]
    Garbled { offset: u64 },
    /// Out of memory for the item.
    #[error("out of memory for the item")]
    Memory,
}
