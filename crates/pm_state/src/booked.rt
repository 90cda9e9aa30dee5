//! The bytes of the items of Boots and Nows.
ghost use Rattle.std.specs.Prelude.{◌≡◌, [], ◌++◌, drop, IfOk, OnOk};
ghost use Rattle.pm_inventory.specs.Inventory.{inventory_text};
ghost use Rattle.pm_base.specs.Moment.{IsMoment};
ghost use Rattle.pm_history.specs.declared.entry.Entry.TheVariants.{Boot};
ghost use Rattle.pm_history.specs.History.{Start};
ghost use Rattle.pm_ledger.specs.Stored.{HasText, AddsItem};
ghost use Rattle.pm_store.specs.declared.item.Item1.TheVariants as stored;
ghost use Rattle.pm_state.specs.Filled.{filled, filled_from};

use pm_base::Blob;
use pm_inventory::Inventory;
use pm_meas::Cell;
use pm_store::{Cells, Cursors, Item1, VERSION, encode};
use std::alloc::{AllocError, Global};

// An item that passes the lengths of its fields takes more memory than there is.
pub(crate) fn bytes_of(alloc: Global, item: &Item1) -> Result<Blob, AllocError>
    ensures { IfOk result (HasText item.now) }
{
    if !item.has_bytes() {
        return Err(AllocError);
    }
    encode(alloc, item)
}

/// The bytes of the item of a Boot.
pub fn boot_bytes(alloc: Global, inventory: &Inventory, moment: u64) -> Result<Blob, AllocError>
    ensures { IfOk result (HasText (stored.Boot moment 1 (inventory_text inventory.now))) }
{
    let text = inventory.text(alloc)?;
    bytes_of(
        alloc,
        &Item1::Boot {
            moment,
            version: VERSION,
            inventory: text,
        },
    )
}

// The cells with values, with the numbers of their slots.
fn filled_cells(alloc: Global, cells: &[Cell]) -> Result<Vec<(u16, Cell)>, AllocError>
    ensures { IfOk result (λ pairs. pairs.items ≡ filled cells.now) }
{
    let mut pairs = Vec::new(alloc);
    for (slot, cell) in cells.iter().enumerate() {
        if cell.n > 0 {
            let Ok(slot) = u16::try_from(slot) else {
                return Err(AllocError);
            };
            pairs.push((slot, *cell))?;
        }
    }
    Ok(pairs)
}

/// The bytes of the item of a Now that ends this tick, which has these cells, where the subscriptions have these cursors.
pub fn booked_bytes(
    alloc: Global,
    moment: u64,
    tick: u64,
    cells: &[Cell],
    cursors: Vec<u64>,
) -> Result<Blob, AllocError>
    ensures { IfOk result (HasText (stored.Booked moment tick (filled cells.now) cursors.items)) }
{
    let cells = Cells::from_vec(filled_cells(alloc, cells)?);
    bytes_of(
        alloc,
        &Item1::Booked {
            moment,
            tick,
            cells,
            cursors: Cursors::from_vec(cursors),
        },
    )
}

/// The bytes of the first item of a store, which is that of a Boot.
pub fn first_item(alloc: Global, inventory: &Inventory, moment: u64) -> Result<Blob, AllocError>
    requires { IsMoment moment }
    ensures { IfOk result (AddsItem inventory.now Start (Boot moment)) }
{
    boot_bytes(alloc, inventory, moment)
}
