//! What is joined.

/// What is joined into one key.
#[derive(Clone, Copy, Debug, PartialEq, Eq)]
pub enum By {
    /// Nothing: each part and each object has a key of its own.
    Period,
    /// The parts of an object.
    Object,
    /// The parts and the objects.
    All,
}
