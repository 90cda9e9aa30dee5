//! Why a call of a collector is refused.

use thiserror::Error;

/// Why a call of a collector is refused. Offsets and lengths are in bytes.
#[derive(Clone, Copy, Debug, PartialEq, Eq, Error)]
pub enum CollectError {
    /// The bytes are no notice.
    #[error("the bytes are no notice")]
    C1,
    /// The bytes are no listing.
    #[error("the bytes are no listing of files")]
    C2,
    /// The file isn't wanted.
    #[error("the file is not wanted")]
    C4,
    /// The bytes are no report, or a report of another name.
    #[error("the file is no report, or a report of another name")]
    C3,
    /// The disk failed, and its count of faults rose. The store has to be opened again.
    #[error("the disk failed: the store has to be opened again")]
    StoreFault,
    /// The area has over 9 bytes, and is too long or doesn't begin with the mark.
    #[error("the area is no store: it does not begin with the mark, or is too long")]
    Foreign,
    /// The gate at this offset is open, and its item doesn't end within the area, or is no file, or its name is held already.
    #[error("the item whose gate is at byte {offset} is no file, or one that is held already")]
    Garbled { offset: u64 },
    /// The store has this length, and would need another one, which passes the limit.
    #[error("the store has {length} bytes and would need {need}, which passes the limit")]
    StoreFull { length: u64, need: u64 },
    /// Out of memory.
    #[error("out of memory")]
    Memory,
}
