//! The cells of a tick, by slot.
ghost use Rattle.std.specs.Prelude.{◌≡◌, length};

use pm_meas::Cell;
use std::marker::Model;

/// Slots, each with its cell, seen by contracts as the list of these pairs.
#[derive(Debug, Drop)]
pub struct Cells {
    cells: Vec<(u16, Cell)>,
}

impl Model for Cells {
    ghost use Rattle.std.specs.Prelude.{ℕ, List};
    ghost use Rattle.pm_meas.specs.declared.cell.Cell.{Cell};

    ghost Value = { List (ℕ × Cell) };

    ghost view = { λ c. c.cells.items };
}

impl Cells {
    /// The list of these pairs. It takes no memory.
    pub fn from_vec(cells: Vec<(u16, Cell)>) -> Cells
        ensures { result ≡ cells.items }
    {
        Cells { cells }
    }

    /// The pairs.
    pub fn as_slice(&self) -> &[(u16, Cell)]
        ensures { result.now ≡ self.now }
    {
        self.cells.as_slice()
    }

    /// How many there are.
    pub fn len(&self) -> usize
        ensures { result ≡ length self.now }
    {
        self.cells.len()
    }
}
