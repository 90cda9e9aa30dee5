//! What a body that breaks no rule makes.
ghost use Rattle.std.specs.Prelude.{◌≡◌, ◌<◌, ◌≤◌, length};
ghost use Rattle.std.specs.List.{list_all};
ghost use Rattle.pm_dn.specs.Tree.{stands};
ghost use Rattle.pm_jobs.specs.Content.{texts};
ghost use Rattle.pm_jobs.specs.Plan.{Answers, IsMade};
ghost use Rattle.pm_jobs.specs.Rules.{is_metric, reports, body_refusal};
ghost use Rattle.pm_jobs.specs.Wanted.{wanted_content};

use crate::limits::limits;
use crate::load::{are_measured, load};
use crate::numbers::{are_metrics, are_objects, metric_numbers, object_numbers};
use crate::rules::{is_period, is_reporting};
use crate::wanted::Wanted;
use crate::{JobError, Standing};
use pm_base::Text;
use pm_history::Side;
use pm_inventory::Inventory;
use std::alloc::Global;

// Whether the reporting period is permitted; a monitor has none.
fn reports(side: Side, wanted: &Wanted) -> bool
    requires { 0 < wanted.now.granularity }
    ensures { result ≡ reports side (wanted_content wanted.now) }
{
    match side {
        Side::Job => is_reporting(wanted.granularity, wanted.reporting),
        Side::Monitor => true,
    }
}

fn metrics_known(inventory: &Inventory, wanted: &Wanted) -> bool
    ensures { result ≡ list_all (is_metric inventory.now) (texts wanted.now.metrics) }
{
    are_metrics(inventory, &wanted.metrics)
}

fn roots_known(inventory: &Inventory, wanted: &Wanted) -> bool
    ensures { result ≡ list_all (stands inventory.now.objects) (texts wanted.now.roots) }
{
    are_objects(inventory, &wanted.roots)
}

fn objects_known(inventory: &Inventory, wanted: &Wanted) -> bool
    ensures { result ≡ list_all (stands inventory.now.objects) (texts wanted.now.objects) }
{
    are_objects(inventory, &wanted.objects)
}

/// What is asked for, made under this id at this moment; or the first rule that it breaks by itself.
pub(crate) fn made(
    alloc: Global,
    inventory: &Inventory,
    moment: u64,
    side: Side,
    id: &[u8],
    wanted: Wanted,
) -> Result<Standing, JobError>
    requires { length id.now ≤ 32 }
    ensures { Answers result (body_refusal inventory.now side (wanted_content wanted)) (IsMade inventory.now moment id.now (wanted_content wanted)) }
{
    if !metrics_known(inventory, &wanted) {
        return Err(JobError::J3);
    }
    if !objects_known(inventory, &wanted) {
        return Err(JobError::J4);
    }
    if !roots_known(inventory, &wanted) {
        return Err(JobError::J4);
    }
    let metrics = metric_numbers(alloc, inventory, &wanted.metrics)?;
    let objects = object_numbers(alloc, inventory, &wanted.objects, &wanted.roots)?;
    if !are_measured(inventory, &metrics, &objects) {
        return Err(JobError::J5);
    }
    if !is_period(wanted.granularity) {
        return Err(JobError::J6);
    }
    if !reports(side, &wanted) {
        return Err(JobError::J7);
    }
    let limits = limits(alloc, inventory, &wanted.thresholds)?;
    let load = load(inventory, wanted.granularity, &metrics, &objects);
    Ok(Standing {
        id: Text::from_slice(alloc, id)?,
        body: wanted.text,
        unlocked: wanted.unlocked,
        changed: moment,
        armed: moment,
        granularity: wanted.granularity,
        reporting: wanted.reporting,
        metrics,
        objects,
        limits,
        load,
    })
}
