//! A metric of the catalogue.
use pm_meas::Reduce;

/// A metric, as its number in catalogue order, and how its values become one.
#[derive(Clone, Copy, Debug, PartialEq, Eq)]
pub struct Metric {
    pub number: u8,
    pub reduce: Reduce,
}
