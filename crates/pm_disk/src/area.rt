//! The two areas of a disk.

/// An area of a disk, as one of two files.
#[derive(Clone, Copy, Debug, PartialEq, Eq)]
pub enum Area {
    First,
    Second,
}
