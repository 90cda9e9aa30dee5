//! The values of one metric on one measured object, folded.
//!
//! A cell keeps how many values there were, their sum, the greatest and the least. Folds of lists merge into the
//! fold of the joined list, in either order, so values may be counted by several threads or before and after a restart.

ghost use Rattle.std.specs.Prelude.{◌≡◌, ◌≢◌, ◌+◌, ◌*◌, ◌<◌, ◌≤◌, ◌↔◌, List, ℕ, [], ◌∷◌, ◌++◌, IsNone};
ghost use Rattle.pm_meas.specs.Cell.{cell_of, with_value, merged, reading, reduced};

use crate::kind::Reduce;

/// The greatest value that an event carries.
pub const MAX_VALUE: u32 = 1_048_575;

/// The greatest number of values in a cell.
pub const MAX_COUNT: u64 = 68_719_476_736;

/// The fold of a list of values. The empty cell has `n` 0, `sum` 0, `max` 0 and `min` 4,294,967,295.
#[derive(Clone, Copy, Debug, PartialEq, Eq)]
pub struct Cell {
    /// How many values there are.
    pub n: u64,
    /// The sum of the values.
    pub sum: u64,
    /// The greatest value.
    pub max: u32,
    /// The least value.
    pub min: u32,
}

impl Cell {
    /// The fold of no value.
    pub fn empty() -> Cell
        ensures { result ≡ cell_of [] }
    {
        Cell {
            n: 0,
            sum: 0,
            max: 0,
            min: u32::MAX,
        }
    }

    /// One more value, in the metric's unit.
    pub fn add(&mut self, value: u32)
        requires value { value ≤ MAX_VALUE }
        requires sound { self.old.sum ≤ self.old.n * MAX_VALUE }
        requires room { self.old.n < MAX_COUNT }
        ensures fields { self.new ≡ with_value self.old value }
        ensures fold { (values : List ℕ) → self.old ≡ cell_of values → self.new ≡ cell_of (values ++ value ∷ []) }
    {
        self.n += 1;
        self.sum += u64::from(value);
        self.max = self.max.max(value);
        self.min = self.min.min(value);
    }

    /// The values of another cell besides. The order of two merges, and which of two cells takes in the other, shows in no cell.
    pub fn merge(&mut self, other: &Cell)
        requires sound { self.old.sum ≤ self.old.n * MAX_VALUE }
        requires other { other.now.sum ≤ other.now.n * MAX_VALUE }
        requires room { self.old.n + other.now.n ≤ MAX_COUNT }
        ensures fields { self.new ≡ merged self.old other.now }
        ensures fold { (xs ys : List ℕ) → self.old ≡ cell_of xs → other.now ≡ cell_of ys → self.new ≡ cell_of (xs ++ ys) }
        ensures either_order { (xs ys : List ℕ) → self.old ≡ cell_of xs → other.now ≡ cell_of ys → self.new ≡ cell_of (ys ++ xs) }
    {
        self.n += other.n;
        self.sum += other.sum;
        self.max = self.max.max(other.max);
        self.min = self.min.min(other.min);
    }

    /// The measured value in the metric's unit, a mean rounded down. `None` is written as `null` in a report.
    pub fn reduce(&self, reduce: Reduce) -> Option<u64>
        ensures none { IsNone result ↔ ((self.now.n ≡ 0) × (reduce ≢ Reduce.Sum)) }
        ensures fields { result ≡ reading reduce self.now }
        ensures fold { (values : List ℕ) → self.now ≡ cell_of values → result ≡ reduced reduce values }
    {
        let Cell { n, sum, max, min } = *self;
        match reduce {
            Reduce::Sum => Some(sum),
            Reduce::Mean => sum.checked_div(n),
            Reduce::Max => (n > 0).then_some(u64::from(max)),
            Reduce::Min => (n > 0).then_some(u64::from(min)),
        }
    }
}
