//! The definitions as they stand, computed slowly over a whole list, for tests to compare with.
ghost use Rattle.std.specs.Prelude.{◌≤◌, ◌<◌, ◌↔◌, ℕ, length, slice_index, IsTrue, IfOk};
ghost use Rattle.pm_history.specs.Crossing.{IsRearmedBetween, IsRearmedBefore, IsRaisedBefore, CrossesUp, CrossesDown, AreFlags};
ghost use Rattle.pm_thresh.specs.Watch.{IsCrossing, AreCrossings};

use crate::direction::Direction;
use std::alloc::{AllocError, Global};

fn is_rearmed_between(high: u64, low: u64, values: &[u64], after: usize, before: usize) -> bool
    requires order { after < before }
    requires within { before ≤ length values.now }
    ensures { IsTrue result ↔ IsRearmedBetween high low values.now after before }
{
    for place in after + 1..before {
        if values[place] <= low && values[place] < high {
            return true;
        }
    }
    false
}

fn is_rearmed_before(high: u64, low: u64, values: &[u64], end: usize) -> bool
    requires { end ≤ length values.now }
    ensures { IsTrue result ↔ IsRearmedBefore high low values.now end }
{
    for place in 0..end {
        if values[place] >= high && !is_rearmed_between(high, low, values, place, end) {
            return false;
        }
    }
    true
}

fn stays_over(low: u64, values: &[u64], after: usize, before: usize) -> bool
    requires order { after < before }
    requires within { before ≤ length values.now }
    ensures { IsTrue result ↔ ((k : ℕ) → after < k → k < before → low < slice_index values.now k) }
{
    for place in after + 1..before {
        if values[place] <= low {
            return false;
        }
    }
    true
}

fn is_raised_before(high: u64, low: u64, values: &[u64], end: usize) -> bool
    requires { end ≤ length values.now }
    ensures { IsTrue result ↔ IsRaisedBefore high low values.now end }
{
    for place in 0..end {
        if values[place] >= high && values[place] > low && stays_over(low, values, place, end) {
            return true;
        }
    }
    false
}

/// Whether an upward crossing stands at a place, counted from 0.
pub fn crosses_up(high: u64, low: u64, values: &[u64], place: usize) -> bool
    ensures { IsTrue result ↔ CrossesUp high low values.now place }
{
    place < values.len() && values[place] >= high && is_rearmed_before(high, low, values, place)
}

/// Whether a downward crossing stands at a place, counted from 0.
pub fn crosses_down(high: u64, low: u64, values: &[u64], place: usize) -> bool
    ensures { IsTrue result ↔ CrossesDown high low values.now place }
{
    place < values.len() && values[place] <= low && is_raised_before(high, low, values, place)
}

/// The kept crossing at a place, counted from 0.
pub fn crossing(
    high: u64,
    low: u64,
    up: bool,
    down: bool,
    values: &[u64],
    place: usize,
) -> Option<Direction>
    ensures { IsCrossing high low up down values.now place result }
{
    if up && crosses_up(high, low, values, place) {
        Some(Direction::Up)
    } else if down && crosses_down(high, low, values, place) {
        Some(Direction::Down)
    } else {
        None
    }
}

/// The kept crossing at each place of a whole sequence, in order.
pub fn crossings(
    alloc: Global,
    high: u64,
    low: u64,
    up: bool,
    down: bool,
    values: &[u64],
) -> Result<Vec<Option<Direction>>, AllocError>
    ensures { IfOk result (λ answers. AreCrossings high low up down values.now answers.items) }
{
    let mut answers = Vec::new(alloc);
    for place in 0..values.len() {
        answers.push(crossing(high, low, up, down, values, place))?;
    }
    Ok(answers)
}

/// The number of a sequence's flags, as `Watch::flags` answers it.
pub fn flags_of(high: u64, low: u64, values: &[u64]) -> u8
    ensures { AreFlags high low values.now result }
{
    u8::from(is_rearmed_before(high, low, values, values.len()))
        + 2 * u8::from(is_raised_before(high, low, values, values.len()))
}
