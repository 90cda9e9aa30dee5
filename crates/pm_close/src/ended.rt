//! A granularity period ends on all objects of one metric of one threshold.

ghost use Rattle.std.specs.Prelude.{◌≡◌, ◌≤◌, ◌<◌, ◌+◌, ◌++◌, ℕ, List, length, OnOk, option_to_list};
ghost use Rattle.std.specs.List.{flat_map};
ghost use Rattle.pm_inventory.specs.Inventory.{SlotKey};
ghost use Rattle.pm_history.specs.declared.entry.Side.{Side};
ghost use Rattle.pm_history.specs.History.{History};
ghost use Rattle.pm_history.specs.Terms.{Terms};
ghost use Rattle.pm_history.specs.Standing.{Making};
ghost use Rattle.pm_history.specs.Value.{is_suspect};
ghost use Rattle.pm_history.specs.Notices.{crossings_by};
ghost use Rattle.pm_close.specs.Rows.{AreSmall};
ghost use Rattle.pm_close.specs.Values.{IsCovered};
ghost use Rattle.pm_close.specs.Watched.{PeriodEnds, ObjectsStand, SameObjects, SlotsWithin, watched_on, object_numbers, all_crossed};

use crate::cells::TickCells;
use crate::crossing::Crossing;
use crate::marks::Marks;
use crate::watched::{WatchedMetric, WatchedObject};
use pm_meas::Cell;
use std::alloc::AllocError;

// One more, if there is one.
fn push_some(crossings: &mut Vec<Crossing>, crossing: Option<Crossing>) -> Result<(), AllocError>
    ensures { OnOk result (crossings.new.items ≡ crossings.old.items ++ option_to_list crossing) }
{
    if let Some(crossing) = crossing {
        crossings.push(crossing)?;
    }
    Ok(())
}

// The crossings come after the earlier ones, by object.
pub fn end_objects(
    of: &WatchedMetric,
    objects: &mut [WatchedObject],
    kept: &TickCells,
    row: &[Cell],
    period: &Marks,
    suspect: bool,
    crossings: &mut Vec<Crossing>,
) -> Result<(), AllocError>
    requires within { SlotsWithin kept.now.slots objects.old }
    requires wide { length row.now ≡ kept.now.slots }
    requires small { AreSmall row.now }
    requires covered { IsCovered kept.now period.now }
    ensures stands { (terms : Side → List ℕ → Terms) (slots : List SlotKey) (h : History) (w : Making) (granularity armed tick : ℕ) (numbers : List ℕ)
        → PeriodEnds terms slots h w granularity armed tick kept.now row.now period.now
        → suspect ≡ is_suspect terms h w period.now.begin granularity
        → ObjectsStand terms slots h w granularity (watched_on of.now numbers) armed tick objects.old
        → OnOk result (ObjectsStand terms slots h w granularity (watched_on of.now numbers) armed (tick + 1) objects.new) }
    ensures crossings { (terms : Side → List ℕ → Terms) (slots : List SlotKey) (h : History) (w : Making) (granularity armed tick : ℕ)
        → PeriodEnds terms slots h w granularity armed tick kept.now row.now period.now
        → suspect ≡ is_suspect terms h w period.now.begin granularity
        → ObjectsStand terms slots h w granularity (watched_on of.now (object_numbers objects.old)) armed tick objects.old
        → OnOk result (all_crossed w.id (tick + 1) crossings.new.items ≡ all_crossed w.id (tick + 1) crossings.old.items
        ++ crossings_by terms h w granularity armed (tick + 1) (watched_on of.now (object_numbers objects.old))) }
    ensures same { OnOk result (SameObjects objects.old objects.new) }
{
    for k in 0..objects.len() {
        let crossing = objects[k].end_period(of, kept, row, period, suspect);
        push_some(crossings, crossing)?;
    }
    Ok(())
}
