//! What kind of measurement a metric is, and how the values of a granularity period become one.

/// The collection methods of TS 32.404, section 3.3. What an event carries goes by the kind.
#[derive(Clone, Copy, Debug, PartialEq, Eq)]
pub enum Kind {
    /// A cumulative counter: an event is an increment.
    Cc,
    /// A gauge: an event is a reading.
    Gauge,
    /// Discrete event registration: an event is its quantity, and each n-th event, 1 to 1,000, is registered.
    Der { n: u32 },
    /// Status inspection: an event is a sample.
    Si,
}

/// How a list of values becomes the measured value.
#[derive(Clone, Copy, Debug, PartialEq, Eq)]
pub enum Reduce {
    Sum,
    /// The sum divided by the number of values, rounded down.
    Mean,
    Max,
    Min,
}
