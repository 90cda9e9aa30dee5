//! How a run of the program ends.
ghost use Rattle.std.specs.Prelude.{◌≡◌};
ghost use Rattle.pm_top.specs.Exit.{exit_of};

use pm_base::Code;

/// How a run of the program ends.
#[derive(Clone, Copy, Debug, PartialEq, Eq)]
pub enum Status {
    /// The input was read to its end, or to a request that closes.
    Done,
    /// The words of the command line are none that the program knows.
    Usage,
    /// A line of the input or the framing of a request is refused, or the input ends inside a request (`H9`) or is too long (`Z1`).
    BadInput {
        /// The number of the line, from 1; of a request the offset of its first byte after the inventory, in bytes; for `Z1` the most
        /// bytes that are read.
        place: u64,
        /// By which rule.
        code: Code,
    },
    /// The input failed.
    ReadFault,
    /// The output failed.
    WriteFault,
    /// The disk failed.
    StoreFault,
    /// The store's area has over 9 bytes, and is too long or doesn't begin with the mark.
    Foreign,
    /// The store's item whose gate is at this offset can't be taken.
    Garbled {
        /// In bytes.
        offset: u64,
    },
    /// An item would make the store longer than may be.
    StoreFull {
        /// Its length, in bytes.
        length: u64,
        /// The length that it would need.
        need: u64,
    },
    /// The link to a peer failed.
    LinkFault,
    /// A reply of a peer is refused.
    BadPeer {
        /// The number of the exchange, from 1.
        place: u64,
        /// By which rule.
        code: Code,
    },
    /// A line of the inventory is refused or missing.
    BadInventory {
        /// The number of the line, from 1.
        line: u64,
        /// By which rule.
        code: Code,
    },
    /// Want of memory.
    Memory,
}

impl Status {
    /// The exit status of the process.
    pub fn exit(self) -> u8
        ensures { result ≡ exit_of self }
    {
        match self {
            Status::Done => 0,
            Status::Usage => 1,
            Status::BadInput { .. } => 2,
            Status::ReadFault => 3,
            Status::WriteFault => 4,
            Status::StoreFault => 5,
            Status::Foreign | Status::Garbled { .. } => 6,
            Status::StoreFull { .. } => 8,
            Status::LinkFault => 9,
            Status::BadPeer { .. } => 10,
            Status::BadInventory { .. } => 11,
            Status::Memory => 12,
        }
    }
}
