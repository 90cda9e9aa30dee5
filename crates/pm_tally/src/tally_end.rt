//! How a tally ends.
use pm_base::Code;

/// How a tally ends. Numbers of lines are places in the input, from 1, those of the inventory among them.
#[derive(Clone, Copy, Debug, PartialEq, Eq)]
pub enum TallyEnd {
    /// The input was read to its end.
    Done,
    /// A line of events is refused.
    Refused {
        /// The number of the line.
        line: u64,
        /// The first rule broken.
        code: Code,
    },
    /// The input has 1,099,511,627,776 bytes or more.
    TooLong,
    /// The input failed.
    ReadFault,
    /// The output failed.
    WriteFault,
    /// A line of the inventory is refused or missing.
    BadInventory {
        /// The number of the line.
        line: u64,
        /// The first rule broken.
        code: Code,
    },
    /// Out of memory.
    Memory,
}
