//! Cells and cursors in rows of bytes: 22 for a slot and its cell, 8 for a cursor.
ghost use Rattle.std.specs.Prelude.{◌≡◌, map, IfOk};
ghost use Rattle.std.specs.Option.{option_map};
ghost use Rattle.std.specs.Int.{w64, from_be_bytes};
ghost use Rattle.pm_store.specs.Rows.{cell_in, are_rising};
ghost use Rattle.pm_store.specs.Item.{cells_listed, cursors_listed};

use crate::cells::Cells;
use crate::cursors::Cursors;
use crate::numbers::{number_in_2, number_in_4, number_in_8};
use crate::reading::{byte, number16};
use pm_meas::Cell;
use std::alloc::{AllocError, Global};

/// The bytes of a slot and its cell.
pub(crate) const CELL_BYTES: usize = 22;

/// The bytes of a cursor.
pub(crate) const CURSOR_BYTES: usize = 8;

#[inline(always)]
fn cell_in(row: &[u8; 22]) -> (u16, Cell)
    ensures { result ≡ cell_in row.now }
{
    let cell = Cell {
        n: u64::from(number_in_4(&row[2..6])),
        sum: number_in_8(&row[6..14]),
        max: number_in_4(&row[14..18]),
        min: number_in_4(&row[18..]),
    };
    (number_in_2(&row[..2]), cell)
}

// Whether they stand in rising order of slots, none of them without values.
fn are_rising(rows: &[[u8; 22]]) -> bool
    ensures { result ≡ are_rising (map cell_in rows.now) }
{
    let mut least = 0u32;
    for row in rows {
        let (slot, cell) = cell_in(row);
        let slot = u32::from(slot);
        if slot < least || cell.n == 0 {
            return false;
        }
        least = slot + 1;
    }
    true
}

/// The cells at the front, as rows, after their number in two bytes.
pub(crate) fn cell_rows(bytes: &[u8]) -> Option<(&[[u8; 22]], &[u8])>
    ensures { option_map (λ x. (map cell_in x.0.now, x.1.now)) result ≡ cells_listed.read bytes.now }
{
    let (count, rest) = number16(bytes)?;
    let size = usize::from(count) * CELL_BYTES;
    if rest.len() < size {
        return None;
    }
    let (front, rest) = rest.split_at(size);
    let (rows, _) = front.as_chunks::<22>();
    if are_rising(rows) {
        Some((rows, rest))
    } else {
        None
    }
}

/// The cursors at the front, as rows, after their number in a byte.
pub(crate) fn cursor_rows(bytes: &[u8]) -> Option<(&[[u8; 8]], &[u8])>
    ensures { option_map (λ x. (map (from_be_bytes w64) x.0.now, x.1.now)) result ≡ cursors_listed.read bytes.now }
{
    let (count, rest) = byte(bytes)?;
    let size = usize::from(count) * CURSOR_BYTES;
    if rest.len() < size {
        return None;
    }
    let (front, rest) = rest.split_at(size);
    let (rows, _) = front.as_chunks::<8>();
    Some((rows, rest))
}

/// The cells of rows.
pub(crate) fn cells_of(alloc: Global, rows: &[[u8; 22]]) -> Result<Cells, AllocError>
    ensures { IfOk result (λ cells. cells ≡ map cell_in rows.now) }
{
    let mut cells = Vec::with_capacity(alloc, rows.len())?;
    for row in rows {
        cells.push(cell_in(row))?;
    }
    Ok(Cells::from_vec(cells))
}

/// The cursors of rows.
pub(crate) fn cursors_of(alloc: Global, rows: &[[u8; 8]]) -> Result<Cursors, AllocError>
    ensures { IfOk result (λ cursors. cursors ≡ map (from_be_bytes w64) rows.now) }
{
    let cursors = rows
        .iter()
        .map(|row| u64::from_be_bytes(*row))
        .collect(alloc)?;
    Ok(Cursors::from_vec(cursors))
}
