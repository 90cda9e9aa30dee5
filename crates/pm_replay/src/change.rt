//! What stored changes of jobs and monitors do.
ghost use Rattle.std.specs.Prelude.{◌≡◌, ◌↔◌, IsTrue, IfOk, Err};
ghost use Rattle.pm_inventory.specs.Inventory.{InventoryState};
ghost use Rattle.pm_jobs.specs.Plan.{made_entry, state_entry, deleted_entry};
ghost use Rattle.pm_replay.specs.Allowed.{MayMake, MayMove, MayDelete};
ghost use Rattle.pm_replay.specs.Change.{IsPlanOf, Makes};
ghost use Rattle.pm_replay.specs.declared.error.ReplayError.TheVariants.{NotPermitted};

use crate::ReplayError;
use crate::found::find;
use pm_history::Side;
use pm_inventory::Inventory;
use pm_jobs::{Ask, JobError, Jobs, Plan};

// Whether it puts in what was made with this body.
fn makes(plan: &Plan, body: &[u8]) -> bool
    ensures { IsTrue result ↔ Makes body.now plan.now }
{
    match plan {
        Plan::Make { standing, .. } => standing.body.as_bytes() == body,
        _ => false,
    }
}

/// What making a job or a monitor does.
pub fn plan_making(
    inventory: &Inventory,
    jobs: &Jobs,
    moment: u64,
    side: Side,
    id: &[u8],
    body: &[u8],
) -> Result<Plan, ReplayError>
    ensures plan { IfOk result (IsPlanOf inventory.now jobs.now (made_entry side moment id.now body.now)) }
    ensures permitted { IfOk result (λ plan. MayMake inventory.now jobs.now side id.now body.now) }
    ensures refused { result ≡ Err NotPermitted → MayMake inventory.now jobs.now side id.now body.now → ⊥ }
    ensures held { result ≡ Err ReplayError.Unheld → ⊥ }
{
    match jobs.plan(inventory, moment, side, &Ask::Create { id, body }) {
        Ok(plan) => {
            if makes(&plan, body) {
                return Ok(plan);
            }
            Err(ReplayError::NotPermitted)
        }
        Err(JobError::Memory) => Err(ReplayError::Memory),
        Err(_) => Err(ReplayError::NotPermitted),
    }
}

/// What setting a state does.
pub fn plan_state(
    jobs: &Jobs,
    moment: u64,
    side: Side,
    id: &[u8],
    unlocked: bool,
) -> Result<Plan, ReplayError>
    ensures plan { (inventory : InventoryState) → IfOk result (IsPlanOf inventory jobs.now (state_entry side moment id.now unlocked)) }
    ensures permitted { IfOk result (λ plan. MayMove jobs.now side id.now unlocked) }
    ensures refused { result ≡ Err NotPermitted → MayMove jobs.now side id.now unlocked → ⊥ }
    ensures held { result ≡ Err ReplayError.Unheld → ⊥ }
{
    match find(jobs, side, id) {
        None => Err(ReplayError::NotPermitted),
        Some(place) => {
            if jobs.at(side, place).unlocked == unlocked {
                return Err(ReplayError::NotPermitted);
            }
            Ok(Plan::Move {
                side,
                place: usize::from(place),
                unlocked,
                moment,
            })
        }
    }
}

/// What a deletion does.
pub fn plan_deletion(jobs: &Jobs, moment: u64, side: Side, id: &[u8]) -> Result<Plan, ReplayError>
    ensures plan { (inventory : InventoryState) → IfOk result (IsPlanOf inventory jobs.now (deleted_entry side moment id.now)) }
    ensures permitted { IfOk result (λ plan. MayDelete jobs.now side id.now) }
    ensures refused { result ≡ Err NotPermitted → MayDelete jobs.now side id.now → ⊥ }
    ensures held { result ≡ Err ReplayError.Unheld → ⊥ }
{
    let Some(place) = find(jobs, side, id) else {
        return Err(ReplayError::NotPermitted);
    };
    Ok(Plan::Delete {
        side,
        place: usize::from(place),
        moment,
    })
}
