//! One cell for each slot.
ghost use Rattle.std.specs.Prelude.{◌≡◌, ◌+◌, ◌*◌, ◌<◌, ◌≤◌, ◌↔◌, List, [], length, Some, IfOk, IsTrue, slice_get, slice_index_or, slice_set, replicate};
ghost use Rattle.pm_meas.specs.Cell.{cell_of, with_value};

use crate::cell::{Cell, MAX_COUNT, MAX_VALUE};
use std::alloc::{AllocError, Global};
use std::marker::Model;

/// A list of cells, one for each slot. A slot's number is its place.
#[derive(Debug, Drop)]
pub struct Tally {
    cells: Vec<Cell>,
}

impl Model for Tally {
    ghost use Rattle.std.specs.Prelude.{List, length, ◌<◌, ◌^◌};
    ghost use Rattle.pm_meas.specs.declared.cell.Cell.{Cell};

    ghost Value = { List Cell };

    ghost view = { λ t. t.cells.items };

    ghost invariant = { λ t. length t.cells.items < 2 ^ 32 };
}

impl Tally {
    /// An empty cell for each of so many slots.
    pub fn new(alloc: Global, slots: u32) -> Result<Tally, AllocError>
        ensures { IfOk result (λ t. t ≡ replicate slots (cell_of [])) }
    {
        let cells = vec![in alloc; Cell::empty(); slots as usize]?;
        Ok(Tally { cells })
    }

    /// How many slots there are.
    pub fn len(&self) -> u32
        ensures { result ≡ length self.now }
    {
        self.cells.len() as u32
    }

    /// Whether there is no slot.
    pub fn is_empty(&self) -> bool
        ensures { IsTrue result ↔ (self.now ≡ []) }
    {
        self.cells.is_empty()
    }

    /// The cell of a slot.
    pub fn get(&self, slot: u32) -> Cell
        requires { slot < length self.now }
        ensures { slice_get self.now slot ≡ Some result }
    {
        self.cells[slot as usize]
    }

    /// The cells in the order of the slots.
    pub fn cells(&self) -> &[Cell]
        ensures { result.now ≡ self.now }
    {
        self.cells.as_slice()
    }

    /// Puts a cell in the place of a slot's.
    pub fn set(&mut self, slot: u32, cell: Cell)
        requires { slot < length self.old }
        ensures { self.new ≡ slice_set self.old slot cell }
    {
        self.cells[slot as usize] = cell;
    }

    /// One more value of a slot, in the metric's unit.
    pub fn add(&mut self, slot: u32, value: u32)
        requires slot { slot < length self.old }
        requires value { value ≤ MAX_VALUE }
        requires sound { let cell = slice_index_or self.old slot (cell_of []) in cell.sum ≤ cell.n * MAX_VALUE }
        requires room { let cell = slice_index_or self.old slot (cell_of []) in cell.n < MAX_COUNT }
        ensures { self.new ≡ slice_set self.old slot (with_value (slice_index_or self.old slot (cell_of [])) value) }
    {
        self.cells[slot as usize].add(value);
    }

    /// Empties each cell.
    pub fn clear(&mut self)
        ensures { self.new ≡ replicate (length self.old) (cell_of []) }
    {
        self.cells.fill(Cell::empty());
    }
}
