//! Whether an item has bytes.
ghost use Rattle.std.specs.Prelude.{◌≡◌, ◌↔◌, ◌<◌, length, All, IsTrue};
ghost use Rattle.pm_store.specs.Rows.{are_rising, IsSlotCell};
ghost use Rattle.pm_store.specs.Item.{cells_listed, cursors_listed, opened, booked, made, subscribed, FieldsFit, IsItem};

use crate::cells::Cells;
use crate::cursors::Cursors;
use crate::item::{Item1, VERSION};
use pm_base::{Blob, LAST_MOMENT, Text};
use pm_meas::Cell;

// Whether the numbers of a cell are below the limits of their bytes.
fn is_slot_cell(slot: u16, n: u64, sum: u64, max: u32, min: u32) -> bool
    ensures { IsTrue result ↔ IsSlotCell (slot, record { n = n; sum = sum; max = max; min = min }) }
{
    n <= 4_294_967_295
}

// Whether the numbers of each cell are below the limits of their bytes.
fn are_slot_cells(cells: &[(u16, Cell)]) -> bool
    ensures { IsTrue result ↔ All IsSlotCell cells.now }
{
    for pair in cells {
        let (slot, Cell { n, sum, max, min }) = *pair;
        if !is_slot_cell(slot, n, sum, max, min) {
            return false;
        }
    }
    true
}

fn are_rising(cells: &[(u16, Cell)]) -> bool
    ensures { result ≡ are_rising cells.now }
{
    let mut least = 0u32;
    for (slot, cell) in cells {
        let slot = u32::from(*slot);
        if slot < least || cell.n == 0 {
            return false;
        }
        least = slot + 1;
    }
    true
}

fn cells_fit(cells: &Cells) -> bool
    ensures { IsTrue result ↔ cells_listed.Fits cells.now }
{
    cells.len() <= 65_535 && are_slot_cells(cells.as_slice()) && are_rising(cells.as_slice())
}

fn cursors_fit(cursors: &[u64]) -> bool
    ensures { IsTrue result ↔ cursors_listed.Fits cursors.now }
{
    cursors.len() < 256
}

fn is_short(text: &Text) -> bool
    ensures { IsTrue result ↔ (length text.now < 256) }
{
    text.len() < 256
}

fn is_long(bytes: &Blob) -> bool
    ensures { IsTrue result ↔ (length bytes.now < 4294967296) }
{
    bytes.len() < 4_294_967_296
}

fn boot_fits(version: u8, inventory: &Blob) -> bool
    ensures { IsTrue result ↔ opened.Fits (version, inventory.now) }
{
    version == VERSION && is_long(inventory)
}

fn booked_fits(tick: u64, cells: &Cells, cursors: &Cursors) -> bool
    ensures { IsTrue result ↔ booked.Fits (tick, (cells.now, cursors.now)) }
{
    cells_fit(cells) && cursors_fit(cursors.as_slice())
}

fn made_fits(id: &Text, body: &Blob) -> bool
    ensures { IsTrue result ↔ made.Fits (id.now, body.now) }
{
    is_short(id) && is_long(body)
}

fn subscription_fits(id: &Text, port: u16, path: &Text) -> bool
    ensures { IsTrue result ↔ subscribed.Fits (id.now, (port, path.now)) }
{
    is_short(id) && is_short(path)
}

fn fields_fit(item: &Item1) -> bool
    ensures { IsTrue result ↔ FieldsFit item.now }
{
    match item {
        Item1::Boot {
            version,
            inventory,
            ..
        } => boot_fits(*version, inventory),
        Item1::Booked {
            tick,
            cells,
            cursors,
            ..
        } => booked_fits(*tick, cells, cursors),
        Item1::JobMade { id, body, .. } | Item1::MonitorMade { id, body, .. } => {
            made_fits(id, body)
        }
        Item1::JobState { id, .. }
        | Item1::MonitorState { id, .. }
        | Item1::JobDeleted { id, .. }
        | Item1::MonitorDeleted { id, .. }
        | Item1::Unsubscribed { id, .. } => is_short(id),
        Item1::Subscribed { id, port, path, .. } => subscription_fits(id, *port, path),
    }
}

impl Item1 {
    /// Whether `encode` takes it.
    pub fn has_bytes(&self) -> bool
        ensures { IsTrue result ↔ IsItem self.now }
    {
        self.moment() <= LAST_MOMENT && fields_fit(self)
    }
}
