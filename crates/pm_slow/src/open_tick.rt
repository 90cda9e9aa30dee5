//! The values of the open tick, and their cells.
ghost use Rattle.std.specs.Prelude.{◌≡◌, ◌≤◌, ◌<◌, ◌+◌, ◌^◌, ◌++◌, [], true, length, if◌then◌else◌, IfOk};
ghost use Rattle.pm_history.specs.History.{history_of};
ghost use Rattle.pm_history.specs.Value.{value_where};
ghost use Rattle.pm_items.specs.Items.{ends_tick, open_values, open_cells};

use crate::keeping::is_later;
use crate::value::{add, value_in};
use pm_history::Entry;
use pm_meas::Cell;
use pm_meas::plain::fold_of;
use std::alloc::{AllocError, Global};

// Whether an entry ends what was open.
fn ends_tick(before: &[Entry], entry: &Entry) -> bool
    ensures { result ≡ ends_tick (history_of before.now) entry.now }
{
    match entry {
        Entry::Boot { .. } => true,
        Entry::Now { moment } => is_later(before, *moment),
        _ => false,
    }
}

// The values after an entry.
fn next_values(
    alloc: Global,
    values: Vec<u32>,
    before: &[Entry],
    entry: &Entry,
    object: u16,
    metric: u8,
) -> Result<Vec<u32>, AllocError>
    ensures values { IfOk result (λ v. v.items ≡ (if ends_tick (history_of before.now) entry.now then [] else values.items ++ value_where object metric (λ tick. true) entry.now)) }
    ensures few { IfOk result (λ v. length v.items ≤ length values.items + 1) }
{
    if ends_tick(before, entry) {
        return Ok(Vec::new(alloc));
    }
    let mut values = values;
    let value = value_in(entry, object, metric, true);
    add(&mut values, value)?;
    Ok(values)
}

fn open_values(
    alloc: Global,
    history: &[Entry],
    object: u16,
    metric: u8,
) -> Result<Vec<u32>, AllocError>
    ensures values { IfOk result (λ v. v.items ≡ open_values object metric (history_of history.now)) }
    ensures few { IfOk result (λ v. length v.items ≤ length history.now) }
{
    let mut values = Vec::new(alloc);
    for (place, entry) in history.iter().enumerate() {
        values = next_values(alloc, values, &history[..place], entry, object, metric)?;
    }
    Ok(values)
}

/// The cell of an object and a metric, of the registered events since the last entry that ended a tick.
pub fn open_cell(
    alloc: Global,
    history: &[Entry],
    object: u16,
    metric: u8,
) -> Result<Cell, AllocError>
    requires { length history.now < 2 ^ 32 }
    ensures { IfOk result (λ cell. cell ≡ open_cells (history_of history.now) object metric) }
{
    let values = open_values(alloc, history, object, metric)?;
    Ok(fold_of(values.as_slice()))
}
