//! How a run of key indicators ends.

use pm_base::Code;

/// How a run of key indicators ends.
#[derive(Clone, Copy, Debug, PartialEq, Eq)]
pub enum KpiEnd {
    /// Every key's line is written.
    Done,
    /// A line of the input is refused, or the input is too long.
    BadInput {
        /// The number of the line, from 1; for `Z1` the most bytes that are read.
        place: u64,
        /// `K1` to `K3`, or `Z1` where as many bytes as may be read come before the end of the next line.
        code: Code,
    },
    /// The input failed.
    ReadFault,
    /// The output failed.
    WriteFault,
    /// The disk failed.
    StoreFault,
    /// The first area of the disk is no store.
    Foreign,
    /// An item of the store is no file, or one that is held already.
    Garbled {
        /// The offset of its gate, in bytes.
        offset: u64,
    },
    /// Out of memory.
    Memory,
}
