//! Cells in a vector that has room for them.
ghost use Rattle.std.specs.Prelude.{◌≡◌, ◌≤◌, ◌+◌, ◌++◌, ◌↔◌, [], IsTrue, length, drop, replicate, vec_capacity};
ghost use Rattle.pm_close.specs.Rows.{IsSmall, AreSmall};
ghost use Rattle.pm_meas.specs.Cell.{cell_of};

use crate::limits::MOST_EVENTS;
use pm_meas::{Cell, MAX_VALUE};

// Adds a row at the end.
pub fn append(cells: &mut Vec<Cell>, row: &[Cell])
    requires { length cells.old.items + length row.now ≤ vec_capacity cells.old }
    ensures appended { cells.new.items ≡ cells.old.items ++ row.now }
    ensures room { vec_capacity cells.old ≤ vec_capacity cells.new }
{
    match cells.extend_from_slice(row) {
        Ok(()) => {}
        Err(_) => unreachable!(),
    }
}

// Adds so many cells without a value at the end.
pub fn append_blank(cells: &mut Vec<Cell>, more: usize)
    requires { length cells.old.items + more ≤ vec_capacity cells.old }
    ensures appended { cells.new.items ≡ cells.old.items ++ replicate more (cell_of []) }
    ensures room { vec_capacity cells.old ≤ vec_capacity cells.new }
{
    let all = cells.len() + more;
    match cells.resize(all, Cell::empty()) {
        Ok(()) => {}
        Err(_) => unreachable!(),
    }
}

// Drops so many cells from the front.
pub fn forget_front(cells: &mut Vec<Cell>, gone: usize)
    requires { gone ≤ length cells.old.items }
    ensures dropped { cells.new.items ≡ drop gone cells.old.items }
    ensures room { vec_capacity cells.new ≡ vec_capacity cells.old }
{
    drop(cells.drain(..gone));
}

/// Whether these are cells of one tick: each has so few events, and a sum that they can have.
pub fn are_small(cells: &[Cell]) -> bool
    ensures { IsTrue result ↔ AreSmall cells.now }
{
    cells.iter().all(is_small)
}

fn is_small(cell: &Cell) -> bool
    ensures { IsTrue result ↔ IsSmall cell.now }
{
    cell.n <= MOST_EVENTS && cell.sum <= cell.n * u64::from(MAX_VALUE)
}
