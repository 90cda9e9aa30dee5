//! Why nothing is printed.
ghost use Rattle.std.specs.Prelude.{◌≡◌};

use std::alloc::AllocError;

#[derive(Clone, Copy, Debug, PartialEq, Eq)]
pub enum Stop {
    /// The line of this number, from 1, isn't of the forms, or says what no history permits there.
    Line(u64),
    /// The input or the output failed.
    Fault,
    /// Memory is wanting.
    Memory,
    /// What the crates of the product gave is not what it must be.
    Broken,
    /// An item has no bytes, or is of an entry that no line makes.
    NoItem,
}

impl From<AllocError> for Stop {
    fn from(_: AllocError) -> Stop {
        Stop::Memory
    }
}
