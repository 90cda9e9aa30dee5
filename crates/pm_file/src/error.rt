//! Why a text is no report.

use thiserror::Error;

/// The first refusal of a text in a walk from its start: each value before what stands in it, an object's keys in byte order.
/// `R5` comes last, where all else is right.
#[derive(Clone, Copy, Debug, PartialEq, Eq, Error)]
pub enum ReportError {
    /// The bytes are no JSON text.
    #[error("the report is no JSON text")]
    R1,
    /// A value has the wrong type, or a string is not one that may stand there.
    #[error("a value of the report has the wrong type, or a string in it may not stand there")]
    R3,
    /// An object has not exactly its keys.
    #[error("an object of the report has not exactly its keys")]
    R2,
    /// A number is not whole, or is out of its range.
    #[error("a number of the report is not whole, or out of its range")]
    R4,
    /// A list is empty that may not be, or lengths, times or the order of classes disagree.
    #[error("lengths, times or the order of classes in the report disagree")]
    R5,
    /// Out of memory.
    #[error("out of memory")]
    Memory,
}
