//! Why a tree is refused, and why no value is read.

/// The first refusal of a text in a walk from its start: each value before what stands in it, an object's keys in byte order.
#[derive(Clone, Copy, Debug, PartialEq, Eq)]
pub enum Refusal {
    /// The bytes are no JSON text.
    NotJson,
    /// A value has the wrong type, or a string is not one that may stand there.
    WrongType,
    /// An object has not exactly its keys.
    WrongKeys,
    /// A number is not whole, or is out of its range.
    WrongNumber,
    /// Values that are right alone do not agree with each other.
    Disagrees,
}

/// Why no value is read.
#[derive(Clone, Copy, Debug, PartialEq, Eq)]
pub enum ReadError {
    /// The text is refused.
    Refused(Refusal),
    /// There was too little memory.
    Memory,
}
