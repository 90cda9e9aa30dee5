//! From an item to its bytes.
ghost use Rattle.std.specs.Prelude.{◌≡◌, ◌≤◌, ◌<◌, ◌^◌, ◌++◌, ℕ, All, List, length, IfOk, OnOk};
ghost use Rattle.std.specs.List.{flat_map};
ghost use Rattle.std.specs.Int.{w64, to_be_bytes};
ghost use Rattle.pm_store.specs.Format.{short, long, flag};
ghost use Rattle.pm_store.specs.Rows.{cell_bytes, IsSlotCell};
ghost use Rattle.pm_store.specs.Item.{made, moved, subscribed, opened, booked, head, cells_listed, cursors_listed, field_bytes, item_bytes, FieldsFit, IsItem};

use crate::cells::Cells;
use crate::cursors::Cursors;
use crate::item::Item1;
use crate::rows::{CELL_BYTES, CURSOR_BYTES};
use pm_base::{Blob, Text};
use pm_meas::Cell;
use std::alloc::{AllocError, Global};

fn put_short(out: &mut Vec<u8>, text: &Text) -> Result<(), AllocError>
    requires { length text.now < 256 }
    ensures { OnOk result (out.new.items ≡ out.old.items ++ short.bytes text.now) }
{
    out.push(text.len() as u8)?;
    out.extend_from_slice(text.as_bytes())?;
    Ok(())
}

fn put_long(out: &mut Vec<u8>, bytes: &Blob) -> Result<(), AllocError>
    requires { length bytes.now < 2 ^ 32 }
    ensures { OnOk result (out.new.items ≡ out.old.items ++ long.bytes bytes.now) }
{
    out.extend_from_slice(&(bytes.len() as u32).to_be_bytes())?;
    out.extend_from_slice(bytes.as_bytes())?;
    Ok(())
}

fn put_made(out: &mut Vec<u8>, id: &Text, body: &Blob) -> Result<(), AllocError>
    requires id { length id.now < 256 }
    requires body { length body.now < 2 ^ 32 }
    ensures { OnOk result (out.new.items ≡ out.old.items ++ made.bytes (id.now, body.now)) }
{
    put_short(out, id)?;
    put_long(out, body)
}

fn put_moved(out: &mut Vec<u8>, id: &Text, unlocked: bool) -> Result<(), AllocError>
    requires { length id.now < 256 }
    ensures { OnOk result (out.new.items ≡ out.old.items ++ moved.bytes (id.now, unlocked)) }
{
    put_short(out, id)?;
    out.push(u8::from(unlocked))?;
    Ok(())
}

fn put_subscribed(out: &mut Vec<u8>, id: &Text, port: u16, path: &Text) -> Result<(), AllocError>
    requires id { length id.now < 256 }
    requires path { length path.now < 256 }
    ensures { OnOk result (out.new.items ≡ out.old.items ++ subscribed.bytes (id.now, (port, path.now))) }
{
    put_short(out, id)?;
    out.extend_from_slice(&port.to_be_bytes())?;
    put_short(out, path)
}

fn put_opened(out: &mut Vec<u8>, version: u8, inventory: &Blob) -> Result<(), AllocError>
    requires { length inventory.now < 2 ^ 32 }
    ensures { OnOk result (out.new.items ≡ out.old.items ++ opened.bytes (version, inventory.now)) }
{
    out.push(version)?;
    put_long(out, inventory)
}

#[inline(always)]
fn row_of(pair: &(u16, Cell)) -> [u8; 22]
    requires { pair.now.1.n < 2 ^ 32 }
    ensures { result ≡ cell_bytes pair.now }
{
    let (slot, Cell { n, sum, max, min }) = *pair;
    let [s0, s1] = slot.to_be_bytes();
    let [n0, n1, n2, n3] = (n as u32).to_be_bytes();
    let [t0, t1, t2, t3, t4, t5, t6, t7] = sum.to_be_bytes();
    let [g0, g1, g2, g3] = max.to_be_bytes();
    let [l0, l1, l2, l3] = min.to_be_bytes();
    [
        s0, s1, n0, n1, n2, n3, t0, t1, t2, t3, t4, t5, t6, t7, g0, g1, g2, g3, l0, l1, l2, l3,
    ]
}

fn put_cells(out: &mut Vec<u8>, cells: &[(u16, Cell)]) -> Result<(), AllocError>
    requires { All IsSlotCell cells.now }
    ensures { OnOk result (out.new.items ≡ out.old.items ++ flat_map cell_bytes cells.now) }
{
    for pair in cells {
        out.extend_from_slice(&row_of(pair))?;
    }
    Ok(())
}

fn put_cursors(out: &mut Vec<u8>, cursors: &[u64]) -> Result<(), AllocError>
    ensures { OnOk result (out.new.items ≡ out.old.items ++ flat_map (to_be_bytes w64) cursors.now) }
{
    for cursor in cursors {
        out.extend_from_slice(&cursor.to_be_bytes())?;
    }
    Ok(())
}

fn put_cells_listed(out: &mut Vec<u8>, cells: &Cells) -> Result<(), AllocError>
    requires fits { cells_listed.Fits cells.now }
    ensures { OnOk result (out.new.items ≡ out.old.items ++ cells_listed.bytes cells.now) }
{
    out.extend_from_slice(&(cells.len() as u16).to_be_bytes())?;
    put_cells(out, cells.as_slice())
}

fn put_cursors_listed(out: &mut Vec<u8>, cursors: &Cursors) -> Result<(), AllocError>
    requires { length cursors.now < 256 }
    ensures { OnOk result (out.new.items ≡ out.old.items ++ cursors_listed.bytes cursors.now) }
{
    out.push(cursors.len() as u8)?;
    put_cursors(out, cursors.as_slice())
}

fn put_booked(
    out: &mut Vec<u8>,
    tick: u64,
    cells: &Cells,
    cursors: &Cursors,
) -> Result<(), AllocError>
    requires { booked.Fits (tick, (cells.now, cursors.now)) }
    ensures { OnOk result (out.new.items ≡ out.old.items ++ booked.bytes (tick, (cells.now, cursors.now))) }
{
    out.extend_from_slice(&tick.to_be_bytes())?;
    put_cells_listed(out, cells)?;
    put_cursors_listed(out, cursors)
}

fn put_fields(out: &mut Vec<u8>, item: &Item1) -> Result<(), AllocError>
    requires { FieldsFit item.now }
    ensures { OnOk result (out.new.items ≡ out.old.items ++ field_bytes item.now) }
{
    match item {
        Item1::Boot {
            version,
            inventory,
            ..
        } => put_opened(out, *version, inventory),
        Item1::Booked {
            tick,
            cells,
            cursors,
            ..
        } => put_booked(out, *tick, cells, cursors),
        Item1::JobMade { id, body, .. } | Item1::MonitorMade { id, body, .. } => {
            put_made(out, id, body)
        }
        Item1::JobState { id, unlocked, .. } | Item1::MonitorState { id, unlocked, .. } => {
            put_moved(out, id, *unlocked)
        }
        Item1::JobDeleted { id, .. }
        | Item1::MonitorDeleted { id, .. }
        | Item1::Unsubscribed { id, .. } => put_short(out, id),
        Item1::Subscribed { id, port, path, .. } => put_subscribed(out, id, *port, path),
    }
}

// How many bytes the fields of a Booked have.
fn booked_size(cells: &Cells, cursors: &Cursors) -> usize
    requires cells { length cells.now < 2 ^ 16 }
    requires cursors { length cursors.now < 256 }
    ensures size { (tick : ℕ) → result ≡ length (booked.bytes (tick, (cells.now, cursors.now))) }
    ensures small { result < 2 ^ 32 }
{
    11 + cells.len() * CELL_BYTES + cursors.len() * CURSOR_BYTES
}

// How many bytes the fields have.
fn field_size(item: &Item1) -> usize
    requires { FieldsFit item.now }
    ensures size { result ≡ length (field_bytes item.now) }
    ensures small { result < 2 ^ 33 }
{
    match item {
        Item1::Boot { inventory, .. } => 5 + inventory.len(),
        Item1::Booked { cells, cursors, .. } => booked_size(cells, cursors),
        Item1::JobMade { id, body, .. } | Item1::MonitorMade { id, body, .. } => {
            5 + id.len() + body.len()
        }
        Item1::JobState { id, .. } | Item1::MonitorState { id, .. } => 2 + id.len(),
        Item1::JobDeleted { id, .. }
        | Item1::MonitorDeleted { id, .. }
        | Item1::Unsubscribed { id, .. } => 1 + id.len(),
        Item1::Subscribed { id, path, .. } => 4 + id.len() + path.len(),
    }
}

/// The bytes of an item. They are counted first, so that their memory is taken once.
pub fn encode(alloc: Global, item: &Item1) -> Result<Blob, AllocError>
    requires { IsItem item.now }
    ensures { IfOk result (λ blob. blob ≡ item_bytes item.now) }
{
    let mut out = Vec::with_capacity(alloc, 9 + field_size(item))?;
    out.push(item.kind())?;
    out.extend_from_slice(&item.moment().to_be_bytes())?;
    put_fields(&mut out, item)?;
    Ok(Blob::from_vec(out))
}
