//! A crossing in the texts of a notice.
ghost use Rattle.std.specs.Prelude.{◌≡◌, ◌≤◌, IfOk, IfSome, Some};
ghost use Rattle.pm_jobs.specs.State.{ids};
ghost use Rattle.pm_close.specs.Flags.{is_upward};
ghost use Rattle.pm_close.specs.MonitorPlans.{told_as};
ghost use Rattle.pm_notice.specs.NoticeContent.{IsCrossed};
ghost use Rattle.pm_notify.specs.Tellable.{IsTellable, crossed_in_texts};

use crate::names::{metric_name, monitor_id, object_text};
use pm_base::{TICK_SECONDS, Text};
use pm_close::MonitorCrossing;
use pm_inventory::Inventory;
use pm_jobs::Jobs;
use pm_notice::Crossed;
use pm_thresh::Direction;
use std::alloc::{AllocError, Global};

fn is_upward(direction: Direction) -> bool
    ensures { result ≡ is_upward direction }
{
    match direction {
        Direction::Up => true,
        Direction::Down => false,
    }
}

/// The crossing at the tick `end` in texts; none where no monitor, object or metric has its number.
pub(crate) fn crossed_at(
    alloc: Global,
    inventory: &Inventory,
    jobs: &Jobs,
    end: u64,
    told: &MonitorCrossing,
) -> Result<Option<Crossed>, AllocError>
    requires { end ≤ 4223371679 }
    ensures crossed { IfOk result (λ crossed. IfSome crossed IsCrossed) }
    ensures told { IsTellable inventory.now (told_as (ids jobs.now.monitors) end told.now)
        → IfOk result (λ crossed. crossed ≡ Some (crossed_in_texts inventory.now (told_as (ids jobs.now.monitors) end told.now))) }
{
    let crossing = told.crossing;
    let Some(monitor) = monitor_id(jobs, told.monitor) else {
        return Ok(None);
    };
    let Some(object) = object_text(inventory, crossing.object) else {
        return Ok(None);
    };
    let Some(metric) = metric_name(inventory, crossing.metric) else {
        return Ok(None);
    };
    Ok(Some(Crossed {
        end: TICK_SECONDS * end,
        hysteresis: crossing.hysteresis,
        monitor: Text::from_slice(alloc, monitor)?,
        object: Text::from_slice(alloc, object)?,
        value: crossing.value,
        metric: Text::from_slice(alloc, metric)?,
        up: is_upward(crossing.direction),
        threshold: crossing.limit,
    }))
}
