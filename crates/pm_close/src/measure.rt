//! Which values are asked for.
use pm_meas::Reduce;

/// A value that is asked for: the number of the slot that counts it, and how the slot's values become one.
#[derive(Clone, Copy, Debug, PartialEq, Eq)]
pub struct Measure {
    pub slot: u32,
    pub reduce: Reduce,
}
