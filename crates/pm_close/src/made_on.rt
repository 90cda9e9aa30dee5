//! What will be kept of what is made.
ghost use Rattle.std.specs.Prelude.{ℕ, ◌<◌, ◌^◌, IfOk};
ghost use Rattle.pm_jobs.specs.declared.plan.Plan.TheVariants.{Make};
ghost use Rattle.pm_close.specs.Following.{ComesWith};

use crate::OpenJob;
use pm_inventory::Inventory;
use pm_jobs::{Side, Standing};
use std::alloc::{AllocError, Global};

// Of a monitor nothing is kept beside the jobs.
pub fn made_on(
    alloc: Global,
    inventory: &Inventory,
    side: Side,
    standing: &Standing,
    tick: u64,
) -> Result<Option<OpenJob>, AllocError>
    requires in_range { tick < 2 ^ 63 }
    ensures { (place : ℕ) → IfOk result (ComesWith inventory.now tick (Make side place standing.now)) }
{
    match side {
        Side::Job => Ok(Some(OpenJob::made(alloc, inventory, standing, tick)?)),
        Side::Monitor => Ok(None),
    }
}
