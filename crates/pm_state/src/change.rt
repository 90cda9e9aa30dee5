//! Changes of jobs and monitors.
ghost use Rattle.std.specs.Prelude.{◌≡◌, ◌⊎◌, [], length, OnErr, IfErr, IfOk, IsSome};
ghost use Rattle.pm_inventory.specs.Inventory.{slots};
ghost use Rattle.pm_close.specs.Closer.{IsPrepared};
ghost use Rattle.pm_jobs.specs.Plan.{IsPlan, Suits, IsOver};
ghost use Rattle.pm_jobs.specs.Rules.{refusal};
ghost use Rattle.pm_state.specs.Planned as planned;
ghost use Rattle.pm_state.specs.Given as given;
ghost use Rattle.pm_state.specs.Changes.{change_given, look_given};

use crate::items::planned_item;
use crate::replies::{no_memory, ok, refused};
use pm_base::{Blob, Code};
use pm_close::{Closer, Prepared};
use pm_history::Side;
use pm_http::Reply;
use pm_inventory::Inventory;
use pm_jobs::{Ask, Jobs, Plan};
use std::alloc::{AllocError, Global};

/// A change that breaks no rule: what enacting it does, the bytes of its item, and its reply.
#[derive(Drop)]
pub struct Change {
    pub plan: Plan,
    // What follows it of what is open.
    pub(crate) made: Prepared,
    /// None where it changes nothing.
    pub item: Option<Blob>,
    pub reply: Reply,
}

fn id_of<'a>(ask: &Ask<'a>) -> &'a [u8]
    ensures { result.now ≡ planned.id_of ask.now }
{
    match ask {
        Ask::Create { id, .. } | Ask::State { id, .. } | Ask::Delete { id } => id,
    }
}

fn planned_status(plan: &Plan) -> u16
    ensures { result ≡ planned.planned_status plan.now }
{
    match plan {
        Plan::Make { .. } => 201,
        Plan::Same | Plan::Move { .. } | Plan::Already => 200,
        Plan::Delete { .. } => 204,
    }
}

fn or_empty(alloc: Global, body: Option<Blob>) -> Blob
    ensures { result ≡ given.or_empty body }
{
    match body {
        Some(body) => body,
        None => Blob::new(alloc),
    }
}

// A plan with the bytes of its item, and its reply.
fn change_of(
    alloc: Global,
    inventory: &Inventory,
    jobs: &Jobs,
    closer: &Closer,
    side: Side,
    id: &[u8],
    plan: Plan,
) -> Result<Change, AllocError>
    requires suits { Suits jobs.now plan }
    requires over { IsOver inventory.now plan }
    requires wide { closer.now.cells.slots ≡ length (slots inventory.now) }
    ensures planned { IfOk result (planned.IsPlanned jobs.now side id.now plan) }
    ensures made { IfOk result (λ change. IsPrepared inventory.now closer.now plan change.made) }
{
    let made = closer.prepare(alloc, inventory, &plan)?;
    let item = planned_item(alloc, id, &plan)?;
    let body = jobs.body_planned(alloc, side, id, &plan)?;
    let reply = ok(alloc, planned_status(&plan), or_empty(alloc, body));
    Ok(Change {
        plan,
        made,
        item,
        reply,
    })
}

/// What a request on a job or a monitor comes to at a moment: a change, with all memory that it needs, or a refusal.
pub fn plan_change(
    alloc: Global,
    inventory: &Inventory,
    jobs: &Jobs,
    closer: &Closer,
    moment: u64,
    side: Side,
    ask: &Ask,
) -> Result<Change, Reply>
    requires { closer.now.cells.slots ≡ length (slots inventory.now) }
    ensures { planned.IsAnswer inventory.now jobs.now closer.now moment (change_given inventory.now jobs.now moment side ask.now) result }
{
    match jobs.plan(inventory, moment, side, ask) {
        Ok(plan) => match change_of(alloc, inventory, jobs, closer, side, id_of(ask), plan) {
            Ok(change) => Ok(change),
            Err(AllocError) => Err(no_memory(alloc)),
        },
        Err(e) => Err(refused(alloc, e.code())),
    }
}

/// The body of a job or a monitor, or that none exists.
pub fn show(alloc: Global, jobs: &Jobs, side: Side, id: &[u8]) -> Reply
    ensures { planned.IsLook (look_given jobs.now side id.now) result }
{
    match jobs.body(alloc, side, id) {
        Ok(Some(body)) => ok(alloc, 200, body),
        Ok(None) => refused(alloc, Code::J10),
        Err(AllocError) => no_memory(alloc),
    }
}
