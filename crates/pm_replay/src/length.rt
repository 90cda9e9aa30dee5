//! How many bytes a stored item has.
ghost use Rattle.std.specs.Prelude.{◌≡◌, ◌<◌, ◌≤◌, ◌^◌, ◌+◌, ◌*◌, length};
ghost use Rattle.pm_store.specs.Item.{IsItem, item_bytes};

use pm_base::{Blob, Text};
use pm_store::{Cells, Cursors, Item1};

/// The bytes of a kind and a moment.
const HEAD_BYTES: u64 = 9;

/// The bytes of a slot with its cell, and of a cursor.
const CELL_BYTES: u64 = 22;

const CURSOR_BYTES: u64 = 8;

// A text, after its length in a byte.
fn short_length(text: &Text) -> u64
    ensures value { result ≡ 1 + length text.now }
    ensures most { result ≤ 65536 }
{
    1 + text.len() as u64
}

// A body, after its length in four bytes.
fn long_length(bytes: &Blob) -> u64
    ensures { length bytes.now < 2 ^ 32 → result ≡ 4 + length bytes.now }
{
    (bytes.len() as u64).saturating_add(4)
}

// The tick, the cells after their number, and the cursors after theirs.
fn booked_length(cells: &Cells, cursors: &Cursors) -> u64
    ensures { length cells.now < 2 ^ 16 → length cursors.now < 2 ^ 8 → result ≡ 11 + 22 * length cells.now + 8 * length cursors.now }
{
    let cells = (cells.len() as u64).saturating_mul(CELL_BYTES);
    let cursors = (cursors.len() as u64).saturating_mul(CURSOR_BYTES);
    cells.saturating_add(cursors).saturating_add(11)
}

fn fields_length(item: &Item1) -> u64
    ensures value { IsItem item.now → result + 9 ≡ length (item_bytes item.now) }
    ensures most { IsItem item.now → result ≤ 2 ^ 33 }
{
    match item {
        Item1::Boot { inventory, .. } => long_length(inventory).saturating_add(1),
        Item1::Booked { cells, cursors, .. } => booked_length(cells, cursors),
        Item1::JobMade { id, body, .. } | Item1::MonitorMade { id, body, .. } => {
            short_length(id).saturating_add(long_length(body))
        }
        Item1::JobState { id, .. } | Item1::MonitorState { id, .. } => short_length(id) + 1,
        Item1::JobDeleted { id, .. }
        | Item1::MonitorDeleted { id, .. }
        | Item1::Unsubscribed { id, .. } => short_length(id),
        Item1::Subscribed { id, path, .. } => short_length(id) + 2 + short_length(path),
    }
}

/// The length of its bytes, of an item that has some.
pub fn stored_length(item: &Item1) -> u64
    ensures { IsItem item.now → result ≡ length (item_bytes item.now) }
{
    fields_length(item).saturating_add(HEAD_BYTES)
}
