//! The definitions as they stand, computed slowly, for tests to compare with.
ghost use Rattle.std.specs.Prelude.{◌≡◌, ◌<◌, ◌^◌, length, sum};
ghost use Rattle.pm_meas.specs.Cell.{cell_of, greatest, least, reduced};

use crate::cell::Cell;
use crate::kind::Reduce;

/// The greatest value, and 0 of none.
pub fn greatest_of(values: &[u32]) -> u32
    ensures { result ≡ greatest values.now }
{
    match values {
        [] => 0,
        [first, rest @ ..] => (*first).max(greatest_of(rest)),
    }
}

/// The least of a value and further ones.
pub fn least_of(first: u32, rest: &[u32]) -> u32
    ensures { result ≡ least first rest.now }
{
    match rest {
        [] => first,
        [second, rest @ ..] => first.min(least_of(*second, rest)),
    }
}

fn sum_of(values: &[u32]) -> u64
    requires { length values.now < 2 ^ 32 }
    ensures { result ≡ sum values.now }
{
    values.iter().map(|value| u64::from(*value)).sum()
}

/// The cell of a list of values.
pub fn fold_of(values: &[u32]) -> Cell
    requires { length values.now < 2 ^ 32 }
    ensures { result ≡ cell_of values.now }
{
    Cell {
        n: values.len() as u64,
        sum: sum_of(values),
        max: greatest_of(values),
        min: least_of(u32::MAX, values),
    }
}

/// The value that a reduction makes of a list of values.
pub fn value_of(reduce: Reduce, values: &[u32]) -> Option<u64>
    requires { length values.now < 2 ^ 32 }
    ensures { result ≡ reduced reduce values.now }
{
    match (reduce, values) {
        (Reduce::Sum, _) => Some(sum_of(values)),
        (_, []) => None,
        (Reduce::Mean, _) => Some(sum_of(values) / values.len() as u64),
        (Reduce::Max, _) => Some(u64::from(greatest_of(values))),
        (Reduce::Min, [first, rest @ ..]) => Some(u64::from(least_of(*first, rest))),
    }
}
