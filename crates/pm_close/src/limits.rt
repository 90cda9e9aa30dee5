//! The sizes that closing counts on.

/// The most events of one slot in a tick.
pub const MOST_EVENTS: u64 = 1_073_741_824;

/// The most ticks of a granularity period: those of an hour.
pub const MOST_TICKS: u64 = 60;
