//! What a row adds to the sums of a key.

/// What a row adds to the sums of a key.
#[derive(Clone, Copy, Debug, PartialEq, Eq)]
pub struct Adds {
    /// Whether no result that the ratio names is null. Only then are the sums added.
    pub whole: bool,
    /// The sum of the numerators' results.
    pub above: u128,
    /// The sum of the denominators' results.
    pub below: u128,
    /// Whether the row is suspect.
    pub suspect: bool,
}
