//! From bytes to an item. That the bytes are no item's is found before any memory is taken.
ghost use Rattle.std.specs.Prelude.{◌≡◌, ◌↔◌, IfOk};
ghost use Rattle.pm_store.specs.declared.item.Item1.{Item1};
ghost use Rattle.pm_store.specs.Format.{short, whole};
ghost use Rattle.pm_store.specs.Item.{made, moved, IsItem, item_bytes};
ghost use Rattle.pm_store.specs.Reading.{Answers, item_of_kind, item_at};

use crate::error::StoreError;
use crate::item::Item1;
use crate::reading::{booked, head, made, moved, named, opened, subscribed};
use crate::rows::{cells_of, cursors_of};
use pm_base::{Blob, Text};
use std::alloc::Global;

fn id_of(alloc: Global, bytes: &[u8]) -> Result<Text, StoreError>
    ensures { Answers result (whole short bytes.now) }
{
    let Some(id) = named(bytes) else {
        return Err(StoreError::Bad);
    };
    Ok(Text::from_slice(alloc, id)?)
}

fn id_and_body(alloc: Global, bytes: &[u8]) -> Result<(Text, Blob), StoreError>
    ensures { Answers result (whole made bytes.now) }
{
    let Some((id, body)) = made(bytes) else {
        return Err(StoreError::Bad);
    };
    let id = Text::from_slice(alloc, id)?;
    let body = Blob::from_slice(alloc, body)?;
    Ok((id, body))
}

fn id_and_state(alloc: Global, bytes: &[u8]) -> Result<(Text, bool), StoreError>
    ensures { Answers result (whole moved bytes.now) }
{
    let Some((id, unlocked)) = moved(bytes) else {
        return Err(StoreError::Bad);
    };
    let id = Text::from_slice(alloc, id)?;
    Ok((id, unlocked))
}

fn boot(alloc: Global, moment: u64, bytes: &[u8]) -> Result<Item1, StoreError>
    ensures { Answers result (item_of_kind 1 moment bytes.now) }
{
    let Some((version, inventory)) = opened(bytes) else {
        return Err(StoreError::Bad);
    };
    let inventory = Blob::from_slice(alloc, inventory)?;
    Ok(Item1::Boot {
        moment,
        version,
        inventory,
    })
}

fn booking(alloc: Global, moment: u64, bytes: &[u8]) -> Result<Item1, StoreError>
    ensures { Answers result (item_of_kind 2 moment bytes.now) }
{
    let Some(rows) = booked(bytes) else {
        return Err(StoreError::Bad);
    };
    let cells = cells_of(alloc, rows.cells)?;
    let cursors = cursors_of(alloc, rows.cursors)?;
    Ok(Item1::Booked {
        moment,
        tick: rows.tick,
        cells,
        cursors,
    })
}

fn subscription(alloc: Global, moment: u64, bytes: &[u8]) -> Result<Item1, StoreError>
    ensures { Answers result (item_of_kind 9 moment bytes.now) }
{
    let Some((id, (port, path))) = subscribed(bytes) else {
        return Err(StoreError::Bad);
    };
    let id = Text::from_slice(alloc, id)?;
    let path = Text::from_slice(alloc, path)?;
    Ok(Item1::Subscribed {
        moment,
        id,
        port,
        path,
    })
}

fn job_made(alloc: Global, moment: u64, bytes: &[u8]) -> Result<Item1, StoreError>
    ensures { Answers result (item_of_kind 3 moment bytes.now) }
{
    let (id, body) = id_and_body(alloc, bytes)?;
    Ok(Item1::JobMade { moment, id, body })
}

fn job_state(alloc: Global, moment: u64, bytes: &[u8]) -> Result<Item1, StoreError>
    ensures { Answers result (item_of_kind 4 moment bytes.now) }
{
    let (id, unlocked) = id_and_state(alloc, bytes)?;
    Ok(Item1::JobState {
        moment,
        id,
        unlocked,
    })
}

fn job_deleted(alloc: Global, moment: u64, bytes: &[u8]) -> Result<Item1, StoreError>
    ensures { Answers result (item_of_kind 5 moment bytes.now) }
{
    let id = id_of(alloc, bytes)?;
    Ok(Item1::JobDeleted { moment, id })
}

fn monitor_made(alloc: Global, moment: u64, bytes: &[u8]) -> Result<Item1, StoreError>
    ensures { Answers result (item_of_kind 6 moment bytes.now) }
{
    let (id, body) = id_and_body(alloc, bytes)?;
    Ok(Item1::MonitorMade { moment, id, body })
}

fn monitor_state(alloc: Global, moment: u64, bytes: &[u8]) -> Result<Item1, StoreError>
    ensures { Answers result (item_of_kind 7 moment bytes.now) }
{
    let (id, unlocked) = id_and_state(alloc, bytes)?;
    Ok(Item1::MonitorState {
        moment,
        id,
        unlocked,
    })
}

fn monitor_deleted(alloc: Global, moment: u64, bytes: &[u8]) -> Result<Item1, StoreError>
    ensures { Answers result (item_of_kind 8 moment bytes.now) }
{
    let id = id_of(alloc, bytes)?;
    Ok(Item1::MonitorDeleted { moment, id })
}

fn unsubscription(alloc: Global, moment: u64, bytes: &[u8]) -> Result<Item1, StoreError>
    ensures { Answers result (item_of_kind 10 moment bytes.now) }
{
    let id = id_of(alloc, bytes)?;
    Ok(Item1::Unsubscribed { moment, id })
}

// The item of a kind and a moment whose fields are all of these bytes.
fn item_of_kind(alloc: Global, kind: u8, moment: u64, bytes: &[u8]) -> Result<Item1, StoreError>
    ensures { Answers result (item_of_kind kind moment bytes.now) }
{
    match kind {
        1 => boot(alloc, moment, bytes),
        2 => booking(alloc, moment, bytes),
        3 => job_made(alloc, moment, bytes),
        4 => job_state(alloc, moment, bytes),
        5 => job_deleted(alloc, moment, bytes),
        6 => monitor_made(alloc, moment, bytes),
        7 => monitor_state(alloc, moment, bytes),
        8 => monitor_deleted(alloc, moment, bytes),
        9 => subscription(alloc, moment, bytes),
        10 => unsubscription(alloc, moment, bytes),
        _ => Err(StoreError::Bad),
    }
}

fn read_item(alloc: Global, bytes: &[u8]) -> Result<Item1, StoreError>
    ensures { Answers result (item_at bytes.now) }
{
    let Some(((kind, moment), rest)) = head(bytes) else {
        return Err(StoreError::Bad);
    };
    item_of_kind(alloc, kind, moment, rest)
}

/// The item that the bytes are, all of them.
pub fn decode(alloc: Global, bytes: &[u8]) -> Result<Item1, StoreError>
    // What is read has these bytes.
    ensures read { IfOk result (λ item. IsItem item × (bytes.now ≡ item_bytes item)) }
    // What has these bytes is read, unless memory is out.
    ensures only { (item : Item1) → IsItem item → bytes.now ≡ item_bytes item → Answers result (Some item) }
    // They are refused exactly where no item has them, however little memory there is.
    ensures bad { (result ≡ Err StoreError.Bad) ↔ ((item : Item1) → IsItem item → bytes.now ≡ item_bytes item → ⊥) }
{
    read_item(alloc, bytes)
}
