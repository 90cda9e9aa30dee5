//! Changes of subscriptions.
ghost use Rattle.std.specs.Prelude.{◌≡◌, IfOk};
ghost use Rattle.pm_inventory.specs.Inventory.{InventoryState};
ghost use Rattle.pm_notice.specs.Planned.{subscriptions_of, IsPlanOf, Answers};
ghost use Rattle.pm_notice.specs.StandFor.{cursors_of, id_at};
ghost use Rattle.pm_notice.specs.declared.error.SubError.{SubError};
ghost use Rattle.pm_notice.specs.declared.subscription.SubPlan.{SubPlan};
ghost use Rattle.std.specs.Prelude.{Result};
ghost use Rattle.pm_store.specs.declared.item.Item1.TheVariants as stored;
ghost use Rattle.pm_ledger.specs.Stored.{HasText};
ghost use Rattle.pm_state.specs.ChangeItem.{AreItemsOf};
ghost use Rattle.pm_state.specs.SubsGiven.{cursor_body, cursor_under, sub_reply, sub_entries, IsSubAnswer};

use crate::booked::bytes_of;
use crate::replies::{no_memory, ok, refused};
use itoa::Buffer;
use pm_base::{Blob, Text};
use pm_http::Reply;
use pm_notice::{SubError, SubPlan, Subscription, Subscriptions};
use pm_store::Item1;
use std::alloc::{AllocError, Global};

/// A change of the subscriptions that breaks no rule: what enacting it does, the bytes of its item, and its reply.
#[derive(Drop)]
pub struct SubChange {
    pub(crate) plan: SubPlan,
    /// None where it changes nothing.
    pub item: Option<Blob>,
    pub(crate) reply: Reply,
}

fn cursor_body(alloc: Global, cursor: u64) -> Result<Blob, AllocError>
    ensures { IfOk result (λ body. body ≡ cursor_body cursor) }
{
    let mut body = Vec::new(alloc);
    let mut digits = Buffer::new();
    body.extend_from_slice(b"{\"cursor\":")?;
    body.extend_from_slice(digits.format(cursor).as_bytes())?;
    body.push(b'}')?;
    Ok(Blob::from_vec(body))
}

// The cursor of the subscription under an id.
fn cursor_under(subs: &Subscriptions, id: &[u8]) -> u64
    ensures { result ≡ cursor_under (subscriptions_of subs.now) id.now }
{
    for place in 0..subs.count() {
        let subscription = subs.at(place);
        if subscription.id.as_bytes() == id {
            return subscription.cursor;
        }
    }
    0
}

/// The cursors of the subscriptions, in byte order of id.
pub fn cursors(alloc: Global, subs: &Subscriptions) -> Result<Vec<u64>, AllocError>
    ensures { IfOk result (λ cursors. cursors.items ≡ cursors_of (subscriptions_of subs.now)) }
{
    let mut cursors = Vec::new(alloc);
    for place in 0..subs.count() {
        cursors.push(subs.at(place).cursor)?;
    }
    Ok(cursors)
}

fn subscribed_bytes(alloc: Global, moment: u64, made: &Subscription) -> Result<Blob, AllocError>
    ensures { IfOk result (HasText (stored.Subscribed moment made.now.id made.now.port made.now.path)) }
{
    let id = Text::from_slice(alloc, made.id.as_bytes())?;
    let path = Text::from_slice(alloc, made.path.as_bytes())?;
    let port = made.port;
    bytes_of(
        alloc,
        &Item1::Subscribed {
            moment,
            id,
            port,
            path,
        },
    )
}

fn unsubscribed_bytes(alloc: Global, moment: u64, gone: &Subscription) -> Result<Blob, AllocError>
    ensures { IfOk result (HasText (stored.Unsubscribed moment gone.now.id)) }
{
    let id = Text::from_slice(alloc, gone.id.as_bytes())?;
    bytes_of(alloc, &Item1::Unsubscribed { moment, id })
}

// The bytes of the item of a plan, if it changes something.
fn planned_item(
    alloc: Global,
    subs: &Subscriptions,
    moment: u64,
    plan: &SubPlan,
) -> Result<Option<Blob>, AllocError>
    requires { IsPlanOf subs.now plan.now }
    ensures { IfOk result (λ item. (inventory : InventoryState) → AreItemsOf inventory item (sub_entries (subscriptions_of subs.now) moment plan.now)) }
{
    match plan {
        SubPlan::New { made } => {
            let bytes = subscribed_bytes(alloc, moment, made)?;
            Ok(Some(bytes))
        }
        SubPlan::Same => Ok(None),
        SubPlan::Deleted { place } => {
            let bytes = unsubscribed_bytes(alloc, moment, subs.at(*place))?;
            Ok(Some(bytes))
        }
    }
}

fn planned_reply(
    alloc: Global,
    subs: &Subscriptions,
    id: &[u8],
    plan: &SubPlan,
) -> Result<Reply, AllocError>
    ensures { IfOk result (λ reply. reply ≡ sub_reply (subscriptions_of subs.now) id.now plan.now) }
{
    match plan {
        SubPlan::New { made } => Ok(ok(alloc, 201, cursor_body(alloc, made.cursor)?)),
        SubPlan::Same => Ok(ok(alloc, 200, cursor_body(alloc, cursor_under(subs, id))?)),
        SubPlan::Deleted { .. } => Ok(ok(alloc, 204, Blob::new(alloc))),
    }
}

fn change_of(
    alloc: Global,
    subs: &Subscriptions,
    moment: u64,
    id: &[u8],
    plan: SubPlan,
) -> Result<SubChange, AllocError>
    requires { IsPlanOf subs.now plan }
    ensures plan { IfOk result (λ change. change.plan ≡ plan) }
    ensures reply { IfOk result (λ change. change.reply ≡ sub_reply (subscriptions_of subs.now) id.now plan) }
    ensures item { IfOk result (λ change. (inventory : InventoryState) → AreItemsOf inventory change.item (sub_entries (subscriptions_of subs.now) moment plan)) }
{
    let item = planned_item(alloc, subs, moment, &plan)?;
    let reply = planned_reply(alloc, subs, id, &plan)?;
    Ok(SubChange { plan, item, reply })
}

/// What was planned for a request on the subscription of an id, as a change with all memory that it needs, or as a refusal.
pub fn sub_change(
    alloc: Global,
    subs: &Subscriptions,
    moment: u64,
    id: &[u8],
    plan: Result<SubPlan, SubError>,
) -> Result<SubChange, Reply>
    requires { IfOk plan (IsPlanOf subs.now) }
    ensures answer { (says : Result SubPlan SubError) → Answers plan says → IsSubAnswer (subscriptions_of subs.now) subs.now moment id.now says result }
    ensures plan { IfOk result (λ change. plan ≡ Ok change.plan) }
{
    match plan {
        Ok(plan) => match change_of(alloc, subs, moment, id, plan) {
            Ok(change) => Ok(change),
            Err(AllocError) => Err(no_memory(alloc)),
        },
        Err(e) => Err(refused(alloc, e.code())),
    }
}
