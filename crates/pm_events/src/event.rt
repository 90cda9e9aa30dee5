//! An event of a slot.

/// The most events that are registered in a tick.
pub const MOST_REGISTERED: u32 = 1_073_741_824;

/// An event: a value of a metric on a measured object at a moment.
#[derive(Clone, Copy, Debug, PartialEq, Eq)]
pub struct Event {
    /// Seconds since 1970-01-01 00:00 UTC.
    pub moment: u64,
    /// The place of the pair of metric and measured object in the list of slots, from 0.
    pub slot: u16,
    /// The increment, the reading, the quantity or the sample, by the metric's kind: 0 to 1,048,575.
    pub value: u32,
}
