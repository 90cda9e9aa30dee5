//! How far a journal has come.

/// | From | Call | To |
/// |---|---|---|
/// | | `open` | `Reading` |
/// | `Reading` | `next` answers an item | `Reading` |
/// | `Reading` | `next` answers None | `Ready` |
/// | `Ready` | `append` | `Ready` |
/// | any | a fault of the disk | `Spent` |
#[derive(Clone, Copy, Debug, PartialEq, Eq)]
pub enum Phase {
    Reading,
    Ready,
    Spent,
}
