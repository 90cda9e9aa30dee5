//! A call of a disk, as a record of calls keeps it.

use crate::Area;

/// A call of a disk in memory. `done` is false where it failed by its number. Offsets and counts are in bytes.
#[derive(Clone, Copy, Debug, PartialEq, Eq)]
pub enum Call {
    Len {
        area: Area,
        done: bool,
    },
    Read {
        area: Area,
        at: u64,
        count: u64,
        done: bool,
    },
    Write {
        area: Area,
        at: u64,
        count: u64,
        done: bool,
    },
    /// A write that the room doesn't hold, so that its bytes aren't kept. It failed.
    Full {
        area: Area,
        at: u64,
        count: u64,
    },
    Cut {
        area: Area,
        to: u64,
        done: bool,
    },
    Sync {
        area: Area,
        done: bool,
    },
}
