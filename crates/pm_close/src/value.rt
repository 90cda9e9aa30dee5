//! The values of a granularity period that ends, from the cells of its counted ticks.

ghost use Rattle.std.specs.Prelude.{◌≡◌, ◌≤◌, ◌<◌, ◌+◌, ◌*◌, ℕ, length, None, if◌then◌else◌};
ghost use Rattle.pm_meas.specs.Cell.{cell_of};
ghost use Rattle.pm_close.specs.Rows.{AreSmall};
ghost use Rattle.pm_close.specs.Marks.{mark_at};
ghost use Rattle.pm_close.specs.Values.{known_cell, merged_where, IsCovered, IsValue};

use crate::cells::TickCells;
use crate::marks::Marks;
use pm_meas::{Cell, Reduce};

// The merge of the cells of a slot in the counted ticks.
fn merge_counted(kept: &TickCells, row: &[Cell], slot: usize, period: &Marks) -> Cell
    requires slot { slot < kept.now.slots }
    requires wide { length row.now ≡ kept.now.slots }
    requires small { AreSmall row.now }
    ensures { result ≡ merged_where (mark_at period.now) (λ k. known_cell kept.now row.now slot (period.now.begin + k)) 0 period.now.count }
{
    let mut merged = Cell::empty();
    for k in 0..period.count() {
        if period.mark(k) {
            merged.merge(&kept.known(row, slot, period.begin() + k as u64));
        }
    }
    merged
}

fn if_some(some: bool, value: Option<u64>) -> Option<u64>
    ensures { result ≡ (if some then value else None) }
{
    if some { value } else { None }
}

/// The value of a slot over a granularity period that ends, `None` where no tick of it is counted. `row` are the cells of
/// the tick that was open; later ticks have none.
pub fn period_value(
    kept: &TickCells,
    row: &[Cell],
    slot: usize,
    period: &Marks,
    reduce: Reduce,
) -> Option<u64>
    requires slot { slot < kept.now.slots }
    requires wide { length row.now ≡ kept.now.slots }
    requires small { AreSmall row.now }
    requires covered { IsCovered kept.now period.now }
    ensures { IsValue kept.now row.now slot period.now reduce result }
{
    let some = period.is_some_counted();
    let cell = merge_counted(kept, row, slot, period);
    let value = cell.reduce(reduce);
    if_some(some, value)
}
