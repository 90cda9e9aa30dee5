//! What a line of a batch says.

/// A value of a slot. Its moment is that of the batch.
#[derive(Clone, Copy, Debug, PartialEq, Eq)]
pub struct Hit {
    /// The place of the pair of metric and measured object in the list of slots, from 0.
    pub slot: u32,
    /// The increment, the reading, the quantity or the sample, by the metric's kind: 0 to 1,048,575.
    pub value: u32,
}
