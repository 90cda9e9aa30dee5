//! The thresholds of a monitor, in numbers.
ghost use Rattle.std.specs.Prelude.{◌≡◌, IfOk, map};
ghost use Rattle.pm_asked.specs.Asked.{keeps_up, keeps_down};
ghost use Rattle.pm_jobs.specs.Content.{directions_content, threshold_content};
ghost use Rattle.pm_jobs.specs.Stands.{bound_of, bound_asked};

use crate::numbers::metric_numbers;
use crate::{Directions, Limit, Threshold};
use pm_inventory::Inventory;
use std::alloc::{AllocError, Global};

fn keeps_up(directions: Directions) -> bool
    ensures { result ≡ keeps_up (directions_content directions) }
{
    match directions {
        Directions::Up | Directions::UpAndDown => true,
        Directions::Down => false,
    }
}

fn keeps_down(directions: Directions) -> bool
    ensures { result ≡ keeps_down (directions_content directions) }
{
    match directions {
        Directions::Down | Directions::UpAndDown => true,
        Directions::Up => false,
    }
}

fn limit(alloc: Global, inventory: &Inventory, threshold: &Threshold) -> Result<Limit, AllocError>
    ensures { IfOk result (λ l. bound_of l ≡ bound_asked inventory.now (threshold_content threshold.now)) }
{
    let metrics = metric_numbers(alloc, inventory, &threshold.metrics)?;
    Ok(Limit {
        metrics,
        up: keeps_up(threshold.directions),
        down: keeps_down(threshold.directions),
        value: threshold.value,
        hysteresis: threshold.hysteresis,
    })
}

/// Each threshold as given, with the numbers of its metrics.
pub(crate) fn limits(
    alloc: Global,
    inventory: &Inventory,
    thresholds: &[Threshold],
) -> Result<Vec<Limit>, AllocError>
    ensures { IfOk result (λ v. map bound_of v.items ≡ map (bound_asked inventory.now) (map threshold_content thresholds.now)) }
{
    let mut limits = Vec::new(alloc);
    for threshold in thresholds {
        let limit = limit(alloc, inventory, threshold)?;
        if limits.push(limit).is_err() {
            return Err(AllocError);
        }
    }
    Ok(limits)
}
