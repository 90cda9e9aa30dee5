//! The sums of a key.
ghost use Rattle.std.specs.Prelude.{◌≡◌, []};
ghost use Rattle.pm_kpi.specs.Totals.{totals_of, plus};

use crate::Adds;

/// The sums of the rows of a key.
#[derive(Clone, Copy, Debug, PartialEq, Eq)]
pub struct Totals {
    /// Whether the key has a row.
    pub stands: bool,
    /// The sum of the numerators' results over the whole rows.
    pub above: u128,
    /// The same of the denominators.
    pub below: u128,
    /// Whether some row is suspect, or isn't whole.
    pub suspect: bool,
}

impl Totals {
    /// The sums of no row.
    pub fn none() -> Totals
        ensures { result ≡ totals_of [] }
    {
        Totals {
            stands: false,
            above: 0,
            below: 0,
            suspect: false,
        }
    }

    /// The sums with one row more. They stop at the greatest number that they can have.
    pub fn plus(self, adds: &Adds) -> Totals
        ensures { result ≡ plus self adds.now }
    {
        let (above, below) = if adds.whole {
            (adds.above, adds.below)
        } else {
            (0, 0)
        };
        Totals {
            stands: true,
            above: self.above.saturating_add(above),
            below: self.below.saturating_add(below),
            suspect: self.suspect || adds.suspect || !adds.whole,
        }
    }
}
