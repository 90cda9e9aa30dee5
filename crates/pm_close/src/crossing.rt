//! The crossings of a monitor.
use pm_thresh::Direction;

/// A crossing of a threshold at the end of a granularity period: the place of the threshold in its monitor, the numbers of
/// metric and object, and the threshold and its hysteresis as given.
#[derive(Clone, Copy, Debug, PartialEq, Eq)]
pub struct Crossing {
    pub threshold: u32,
    pub metric: u8,
    pub object: u16,
    pub direction: Direction,
    pub value: u64,
    pub limit: u64,
    pub hysteresis: u64,
}
