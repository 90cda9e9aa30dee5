//! The inventory of an input: its lines up to `end`, or the default inventory where `end` stands alone.
use crate::stop::Stop;
use pm_dn::Tree;
use pm_inventory::{InvError, Inventory, LineError, take_line};
use pm_meas::Catalogue;
use std::alloc::Global;

/// An inventory in the making.
#[derive(Drop)]
pub(crate) struct Reading {
    tree: Tree,
    catalogue: Catalogue,
    lines: u64,
}

impl Reading {
    pub(crate) fn new(alloc: Global) -> Reading {
        Reading {
            tree: Tree::new(alloc),
            catalogue: Catalogue::new(alloc),
            lines: 0,
        }
    }

    /// Takes one line before `end`, of this number.
    pub(crate) fn take(&mut self, number: u64, line: &[u8]) -> Result<(), Stop> {
        self.lines = number;
        match take_line(&mut self.tree, &mut self.catalogue, line) {
            Ok(()) => Ok(()),
            Err(LineError::Refused(_)) => Err(Stop::Line(number)),
            Err(LineError::Memory) => Err(Stop::Memory),
        }
    }

    /// The inventory, at the line `end` of this number.
    pub(crate) fn finish(self, alloc: Global, number: u64) -> Result<Inventory, Stop> {
        if self.lines == 0 {
            return Ok(Inventory::default(alloc)?);
        }
        match Inventory::finish(alloc, self.tree, self.catalogue) {
            Ok(inventory) => Ok(inventory),
            Err(InvError::Memory) => Err(Stop::Memory),
            Err(_) => Err(Stop::Line(number)),
        }
    }
}
