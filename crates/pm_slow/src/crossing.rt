//! Where a sequence of values crosses a threshold.
ghost use Rattle.std.specs.Prelude.{◌≡◌, ◌≤◌, ◌<◌, ◌&&◌, ◌||◌, not, nat_le, nat_lt, length, slice_index};
ghost use Rattle.pm_history.specs.Crossed.{rearms, is_rearmed_between, is_rearmed_before, stays_over, is_raised_before, crosses_up, crosses_down, crossing_in};

use crate::logic::{and, or};

fn value(values: &[u64], place: usize) -> u64
    requires { place < length values.now }
    ensures { result ≡ slice_index values.now place }
{
    values[place]
}

fn rearms(high: u64, low: u64, value: u64) -> bool
    ensures { result ≡ rearms high low value }
{
    value <= low && value < high
}

fn is_rearmed_between(high: u64, low: u64, values: &[u64], after: usize, end: usize) -> bool
    requires { end ≤ length values.now }
    ensures { result ≡ is_rearmed_between high low values.now after end }
{
    let mut rearmed = false;
    for k in 0..end {
        let now = and(after < k, rearms(high, low, value(values, k)));
        rearmed = or(rearmed, now);
    }
    rearmed
}

fn is_rearmed_before(high: u64, low: u64, values: &[u64], end: usize) -> bool
    requires { end ≤ length values.now }
    ensures { result ≡ is_rearmed_before high low values.now end }
{
    let mut rearmed = true;
    for j in 0..end {
        let now = or(
            !is_high(high, value(values, j)),
            is_rearmed_between(high, low, values, j, end),
        );
        rearmed = and(rearmed, now);
    }
    rearmed
}

fn is_high(high: u64, value: u64) -> bool
    ensures { result ≡ nat_le high value }
{
    high <= value
}

fn is_over(low: u64, value: u64) -> bool
    ensures { result ≡ nat_lt low value }
{
    low < value
}

fn stays_over(low: u64, values: &[u64], after: usize, end: usize) -> bool
    requires { end ≤ length values.now }
    ensures { result ≡ stays_over low values.now after end }
{
    let mut over = true;
    for k in 0..end {
        let now = or(!(after < k), is_over(low, value(values, k)));
        over = and(over, now);
    }
    over
}

fn is_raised_before(high: u64, low: u64, values: &[u64], end: usize) -> bool
    requires { end ≤ length values.now }
    ensures { result ≡ is_raised_before high low values.now end }
{
    let mut raised = false;
    for j in 0..end {
        let from = and(
            is_high(high, value(values, j)),
            is_over(low, value(values, j)),
        );
        let now = and(from, stays_over(low, values, j, end));
        raised = or(raised, now);
    }
    raised
}

/// Whether an upward crossing stands at a place, from 0.
pub fn crosses_up(high: u64, low: u64, values: &[u64], place: usize) -> bool
    ensures { result ≡ crosses_up high low values.now place }
{
    place < values.len() && high <= values[place] && is_rearmed_before(high, low, values, place)
}

/// Whether a downward crossing stands at a place, from 0.
pub fn crosses_down(high: u64, low: u64, values: &[u64], place: usize) -> bool
    ensures { result ≡ crosses_down high low values.now place }
{
    place < values.len() && values[place] <= low && is_raised_before(high, low, values, place)
}

/// The kept crossing at a place, from 0: `Some(true)` for one upward, `Some(false)` for one downward.
pub fn crossing_in(
    high: u64,
    low: u64,
    up: bool,
    down: bool,
    values: &[u64],
    place: usize,
) -> Option<bool>
    ensures { result ≡ crossing_in high low up down values.now place }
{
    if up && crosses_up(high, low, values, place) {
        Some(true)
    } else if down && crosses_down(high, low, values, place) {
        Some(false)
    } else {
        None
    }
}
