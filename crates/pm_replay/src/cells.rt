//! The cells of a stored tick.
ghost use Rattle.std.specs.Prelude.{◌≡◌, ◌<◌, ◌≤◌, ◌*◌, ◌↔◌, true, length, IsTrue, IfOk, slice_set};
ghost use Rattle.pm_meas.specs.declared.cell.TheConstants.{MAX_VALUE};
ghost use Rattle.pm_items.specs.Permitted.{IsInRange};
ghost use Rattle.pm_store.specs.Rows.{are_rising};
ghost use Rattle.pm_close.specs.Rows.{AreSmall};
ghost use Rattle.pm_replay.specs.Cells.{FitsSlot, AllFit, IsRow};

use pm_meas::{Cell, MAX_VALUE};
use std::alloc::{AllocError, Global};

/// The most values of a slot in a tick.
pub const MOST_VALUES: u64 = 1_073_741_824;

// Whether a cell has values, and its numbers are in range.
fn is_in_range(cell: &Cell) -> bool
    ensures { IsTrue result ↔ IsInRange cell.now }
{
    if cell.n == 0 || cell.n > MOST_VALUES {
        return false;
    }
    if cell.min > cell.max || cell.max > MAX_VALUE {
        return false;
    }
    cell.sum <= cell.n * u64::from(cell.max)
}

/// Whether each stored cell is that of one of so many slots, and has values in range.
pub fn cells_fit(width: u16, cells: &[(u16, Cell)]) -> bool
    ensures { IsTrue result ↔ AllFit width cells.now }
{
    for pair in cells {
        if pair.0 >= width || !is_in_range(&pair.1) {
            return false;
        }
    }
    true
}

/// The row of stored cells that fit, which rise by slot.
pub fn row_of(alloc: Global, width: u16, cells: &[(u16, Cell)]) -> Result<Vec<Cell>, AllocError>
    requires { AllFit width cells.now }
    ensures row { are_rising cells.now ≡ true → IfOk result (λ row. IsRow width cells.now row.items) }
    ensures wide { IfOk result (λ row. length row.items ≡ width) }
    ensures small { IfOk result (λ row. AreSmall row.items) }
{
    let mut row = vec![in alloc; Cell::empty(); usize::from(width)]?;
    for pair in cells {
        row[usize::from(pair.0)] = pair.1;
    }
    Ok(row)
}
