//! A cell of a tick that has a value.
use pm_meas::Cell;

/// A cell with at least one value, and the number of its slot.
#[derive(Clone, Copy, Debug, PartialEq, Eq)]
pub struct FilledCell {
    pub slot: u32,
    pub cell: Cell,
}
