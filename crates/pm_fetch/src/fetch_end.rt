//! How a run of a collector ends.

use pm_base::Code;

/// How a run of a collector ends.
#[derive(Clone, Copy, Debug, PartialEq, Eq)]
pub enum FetchEnd {
    /// Every file that the peer lists is held.
    Done,
    /// A line of the input is no notice, or has over 2,048 bytes.
    NoNotice {
        /// The number of the line, from 1.
        line: u64,
    },
    /// As many bytes as may be read come before the end of the next line.
    TooLong,
    /// The input failed.
    ReadFault,
    /// The output failed.
    WriteFault,
    /// The disk failed.
    StoreFault,
    /// The first area of the disk is no store.
    Foreign,
    /// An item of the store is no file, or one that is held already.
    Garbled {
        /// The offset of its gate, in bytes.
        offset: u64,
    },
    /// A file finds no room in the store.
    StoreFull {
        /// The length of the store, in bytes.
        length: u64,
        /// The length that it would need.
        need: u64,
    },
    /// The link failed.
    LinkFault,
    /// A reply of the peer is refused.
    BadPeer {
        /// The number of the exchange, from 1.
        place: u64,
        /// `X1` where it is no reply that is waited for, `C2` where it is no listing, `C3` where it is no report of its name.
        code: Code,
    },
    /// Out of memory.
    Memory,
}
