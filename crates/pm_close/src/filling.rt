//! What is stored of a row, and the row of the open tick.

ghost use Rattle.std.specs.Prelude.{◌≡◌, ◌<◌, ◌^◌, ◌++◌, [], length, replicate, IfOk, OnOk, if◌then◌else◌};
ghost use Rattle.pm_meas.specs.Cell.{cell_of};
ghost use Rattle.pm_close.specs.Closer.{filled_from, filled_one};

use crate::filled::FilledCell;
use pm_meas::Cell;
use std::alloc::{AllocError, Global};

/// The cells that are stored: those with a value, by slot, and none of a start of the program.
pub fn stored(alloc: Global, row: &[Cell], boot: bool) -> Result<Vec<FilledCell>, AllocError>
    requires { length row.now < 2 ^ 32 }
    ensures { IfOk result (λ cells. cells.items ≡ (if boot then [] else filled_from 0 row.now)) }
{
    if boot {
        return Ok(Vec::new(alloc));
    }
    filled_cells(alloc, row)
}

fn filled_cells(alloc: Global, row: &[Cell]) -> Result<Vec<FilledCell>, AllocError>
    requires { length row.now < 2 ^ 32 }
    ensures { IfOk result (λ cells. cells.items ≡ filled_from 0 row.now) }
{
    let mut cells = Vec::new(alloc);
    for slot in 0..row.len() {
        push_filled(&mut cells, slot as u32, row[slot])?;
    }
    Ok(cells)
}

// One more, if it has a value.
fn push_filled(cells: &mut Vec<FilledCell>, slot: u32, cell: Cell) -> Result<(), AllocError>
    ensures { OnOk result (cells.new.items ≡ cells.old.items ++ filled_one slot cell) }
{
    if cell.n > 0 {
        cells.push(FilledCell { slot, cell })?;
    }
    Ok(())
}

/// The cells of the open tick, or cells without values where a start of the program cuts it.
pub fn open_row(alloc: Global, cells: &[Cell], cut: bool) -> Result<Vec<Cell>, AllocError>
    ensures row { IfOk result (λ row. row.items ≡ (if cut then replicate (length cells.now) (cell_of []) else cells.now)) }
{
    if cut {
        return vec![in alloc; Cell::empty(); cells.len()];
    }
    Vec::from_slice(alloc, cells)
}
