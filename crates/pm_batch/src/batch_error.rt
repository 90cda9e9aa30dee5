//! Why a batch isn't counted.
use pm_base::Code;
use thiserror::Error;

/// Why a batch isn't counted.
#[derive(Clone, Copy, Debug, PartialEq, Eq, Error)]
pub enum BatchError {
    /// E1, E2 or E3 of the first line that is refused, with its number from 1; or E4 with the number 0, where the tick is full.
    #[error("a line of the batch is refused")]
    Refused { line: u32, code: Code },
    /// Out of memory for the hits.
    #[error("out of memory for the hits of the batch")]
    Memory,
}
