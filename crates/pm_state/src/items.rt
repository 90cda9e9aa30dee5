//! The bytes of the items of changes.
ghost use Rattle.std.specs.Prelude.{◌≡◌, [], ◌∷◌, IfOk};
ghost use Rattle.pm_inventory.specs.Inventory.{InventoryState};
ghost use Rattle.pm_jobs.specs.Plan.{made_entry, state_entry, deleted_entry};
ghost use Rattle.pm_state.specs.ChangeItem.{AreItemsOf};
ghost use Rattle.pm_state.specs.Planned as planned;

use pm_base::{Blob, Text};
use pm_history::Side;
use pm_jobs::Plan;
use pm_store::{Item1, encode};
use std::alloc::{AllocError, Global};

fn made_item(side: Side, moment: u64, id: Text, body: Blob) -> Item1
    ensures { result ≡ planned.made_item side moment id body }
{
    match side {
        Side::Job => Item1::JobMade { moment, id, body },
        Side::Monitor => Item1::MonitorMade { moment, id, body },
    }
}

fn state_item(side: Side, moment: u64, id: Text, unlocked: bool) -> Item1
    ensures { result ≡ planned.state_item side moment id unlocked }
{
    match side {
        Side::Job => Item1::JobState {
            moment,
            id,
            unlocked,
        },
        Side::Monitor => Item1::MonitorState {
            moment,
            id,
            unlocked,
        },
    }
}

fn deleted_item(side: Side, moment: u64, id: Text) -> Item1
    ensures { result ≡ planned.deleted_item side moment id }
{
    match side {
        Side::Job => Item1::JobDeleted { moment, id },
        Side::Monitor => Item1::MonitorDeleted { moment, id },
    }
}

// An item that passes the lengths of its fields, as a body of 4 GB does, takes more memory than there is.
fn bytes_of(alloc: Global, item: &Item1) -> Result<Option<Blob>, AllocError>
    ensures { IfOk result (planned.IsText item.now) }
{
    if !item.has_bytes() {
        return Err(AllocError);
    }
    let bytes = encode(alloc, item)?;
    Ok(Some(bytes))
}

// An id is short; a longer one takes more memory than there is.
fn text_of(alloc: Global, id: &[u8]) -> Result<Text, AllocError>
    ensures { IfOk result (λ text. text ≡ id.now) }
{
    if id.len() > 255 {
        return Err(AllocError);
    }
    Text::from_slice(alloc, id)
}

fn made(
    alloc: Global,
    side: Side,
    moment: u64,
    id: &[u8],
    body: &[u8],
) -> Result<Option<Blob>, AllocError>
    ensures { IfOk result (planned.IsText (planned.made_item side moment id.now body.now)) }
{
    let id = text_of(alloc, id)?;
    let body = Blob::from_slice(alloc, body)?;
    bytes_of(alloc, &made_item(side, moment, id, body))
}

fn moved(
    alloc: Global,
    side: Side,
    moment: u64,
    id: &[u8],
    unlocked: bool,
) -> Result<Option<Blob>, AllocError>
    ensures { IfOk result (planned.IsText (planned.state_item side moment id.now unlocked)) }
{
    let id = text_of(alloc, id)?;
    bytes_of(alloc, &state_item(side, moment, id, unlocked))
}

fn deleted(alloc: Global, side: Side, moment: u64, id: &[u8]) -> Result<Option<Blob>, AllocError>
    ensures { IfOk result (planned.IsText (planned.deleted_item side moment id.now)) }
{
    let id = text_of(alloc, id)?;
    bytes_of(alloc, &deleted_item(side, moment, id))
}

/// The bytes of the item of a plan on what is under an id; none where it changes nothing.
pub fn planned_item(alloc: Global, id: &[u8], plan: &Plan) -> Result<Option<Blob>, AllocError>
    ensures { (inventory : InventoryState) → IfOk result (λ item. AreItemsOf inventory item (planned.planned_entries id.now plan.now)) }
{
    match plan {
        Plan::Make { side, standing, .. } => made(
            alloc,
            *side,
            standing.changed,
            standing.id.as_bytes(),
            standing.body.as_bytes(),
        ),
        Plan::Same | Plan::Already => Ok(None),
        Plan::Move {
            side,
            unlocked,
            moment,
            ..
        } => moved(alloc, *side, *moment, id, *unlocked),
        Plan::Delete { side, moment, .. } => deleted(alloc, *side, *moment, id),
    }
}
