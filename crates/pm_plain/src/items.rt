//! The items of a history, each as a line of hexadecimal digits.
use crate::run::MAX_ENTRIES;
use crate::stop::Stop;
use pm_base::{Blob, Text};
use pm_history::Entry;
use pm_inventory::Inventory;
use pm_meas::Cell;
use pm_slow::{Item, items, open_cell};
use pm_store::{Cells, Cursors, Item1, VERSION, encode};
use std::alloc::{AllocError, Global};

fn push_cell(
    alloc: Global,
    inventory: &Inventory,
    before: &[Entry],
    object: u16,
    metric: u8,
    cells: &mut Vec<(u16, Cell)>,
) -> Result<(), AllocError> {
    if before.len() > MAX_ENTRIES {
        return Err(AllocError);
    }
    if let Some(slot) = inventory.slot(object, metric) {
        let cell = open_cell(alloc, before, object, metric)?;
        if cell.n > 0 {
            cells.push((slot, cell))?;
        }
    }
    Ok(())
}

// The cells with values, in the order of slots.
fn cells(alloc: Global, inventory: &Inventory, before: &[Entry]) -> Result<Cells, AllocError> {
    let mut cells = Vec::new(alloc);
    for metric in 0..inventory.catalogue().len() {
        for object in 0..inventory.tree().len() {
            push_cell(alloc, inventory, before, object, metric, &mut cells)?;
        }
    }
    Ok(Cells::from_vec(cells))
}

fn text(alloc: Global, text: &Text) -> Result<Text, AllocError> {
    Text::from_slice(alloc, text.as_bytes())
}

fn blob(alloc: Global, blob: &Blob) -> Result<Blob, AllocError> {
    Blob::from_slice(alloc, blob.as_bytes())
}

// The item of a change; none of an entry that is none.
fn changed(alloc: Global, entry: &Entry) -> Result<Option<Item1>, AllocError> {
    let moment = entry.moment();
    let item = match entry {
        Entry::JobMade { id, body, .. } => Item1::JobMade {
            moment,
            id: text(alloc, id)?,
            body: blob(alloc, body)?,
        },
        Entry::JobState { id, unlocked, .. } => Item1::JobState {
            moment,
            id: text(alloc, id)?,
            unlocked: *unlocked,
        },
        Entry::JobDeleted { id, .. } => Item1::JobDeleted {
            moment,
            id: text(alloc, id)?,
        },
        Entry::MonitorMade { id, body, .. } => Item1::MonitorMade {
            moment,
            id: text(alloc, id)?,
            body: blob(alloc, body)?,
        },
        Entry::MonitorState { id, unlocked, .. } => Item1::MonitorState {
            moment,
            id: text(alloc, id)?,
            unlocked: *unlocked,
        },
        Entry::MonitorDeleted { id, .. } => Item1::MonitorDeleted {
            moment,
            id: text(alloc, id)?,
        },
        _ => return Ok(None),
    };
    Ok(Some(item))
}

fn stored(alloc: Global, inventory: &Inventory, item: &Item) -> Result<Item1, Stop> {
    match item {
        Item::Opened { moment } => Ok(Item1::Boot {
            moment: *moment,
            version: VERSION,
            inventory: inventory.text(alloc)?,
        }),
        Item::Booked {
            moment,
            tick,
            before,
        } => Ok(Item1::Booked {
            moment: *moment,
            tick: *tick,
            cells: cells(alloc, inventory, before)?,
            cursors: Cursors::from_vec(Vec::new(alloc)),
        }),
        Item::Changed { entry } => changed(alloc, entry)?.ok_or(Stop::NoItem),
    }
}

fn push_line(alloc: Global, lines: &mut Vec<u8>, bytes: &[u8]) -> Result<(), AllocError> {
    let digits = hex::encode(alloc, bytes)?;
    lines.extend_from_slice(digits.as_bytes())?;
    lines.push(b'\n')?;
    Ok(())
}

/// The lines of the items.
pub(crate) fn item_lines(
    alloc: Global,
    inventory: &Inventory,
    history: &[Entry],
) -> Result<Vec<u8>, Stop> {
    let mut lines = Vec::new(alloc);
    let items = items(alloc, history)?;
    for item in &items {
        let item = stored(alloc, inventory, item)?;
        if !item.has_bytes() {
            return Err(Stop::NoItem);
        }
        let bytes = encode(alloc, &item)?;
        push_line(alloc, &mut lines, bytes.as_bytes())?;
    }
    Ok(lines)
}
