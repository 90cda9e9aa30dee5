//! What is kept of the monitors that stand, as monitors are made, set to UNLOCKED and deleted.

ghost use Rattle.std.specs.Prelude.{◌≡◌, ◌≤◌, ◌<◌, ◌+◌, ◌^◌, ℕ, List, length, insert, remove, IfOk, IfSome, Option, Some};
ghost use Rattle.pm_base.specs.Moment.{tick_of};
ghost use Rattle.pm_inventory.specs.Inventory.{InventoryState, slots};
ghost use Rattle.pm_history.specs.History.{History, grown, last_moment};
ghost use Rattle.pm_jobs.specs.State.{JobsState};
ghost use Rattle.pm_jobs.specs.Plan.{Suits, IsOver, jobs_after, entries_of};
ghost use Rattle.pm_jobs.specs.Stands.{Keeps};
ghost use Rattle.pm_close.specs.declared.cells.TickCells.{TickCells};
ghost use Rattle.pm_close.specs.OpenMonitors.{GoesOn, AllGoOn, MonitorsOpen, IsFresh, IsFor, IsRearmed, IsRearmedAt, IsMade, IsMoved, IsDeleted, IsFollowed, HasPlace, HasPlaceToMake, HasPlaceAt, MayEnact};

use crate::cells::TickCells;
use crate::marks::Marks;
use crate::monitor::OpenMonitor;
use crate::open_monitors::{KeptMonitor, OpenMonitors};
use crate::watched_of::watches_of;
use pm_history::Side;
use pm_inventory::Inventory;
use pm_jobs::{Plan, Standing};
use std::alloc::{AllocError, Global};

// What is kept of a monitor that is being made, in the tick after those of the cells.
fn fresh(
    alloc: Global,
    inventory: &Inventory,
    cells: &TickCells,
    monitor: &Standing,
) -> Result<KeptMonitor, AllocError>
    requires keeps { Keeps inventory.now Side.Monitor monitor.now }
    requires wide { cells.now.slots ≡ length (slots inventory.now) }
    ensures fresh { IfOk result (IsFresh inventory.now (cells.now.first + cells.now.ticks) monitor.now) }
    ensures goes_on { IfOk result (GoesOn cells.now (cells.now.first + cells.now.ticks)) }
{
    let granularity = u64::from(monitor.granularity) / 60;
    let watches = watches_of(alloc, inventory, monitor)?;
    Ok(KeptMonitor {
        granularity,
        open: OpenMonitor {
            marks: Marks::unmarked(granularity, cells.end()),
            watches,
        },
    })
}

/// What `follow` needs for a plan of pm_jobs, made before anything changes: what is kept of a monitor that the plan makes.
/// The open tick is the one after those of the cells.
pub fn prepare(
    alloc: Global,
    inventory: &Inventory,
    cells: &TickCells,
    plan: &Plan,
) -> Result<Option<KeptMonitor>, AllocError>
    requires over { IsOver inventory.now plan.now }
    requires wide { cells.now.slots ≡ length (slots inventory.now) }
    ensures made { IfOk result (IsFor inventory.now (cells.now.first + cells.now.ticks) plan.now) }
    ensures goes_on { IfOk result (λ made. IfSome made (GoesOn cells.now (cells.now.first + cells.now.ticks))) }
{
    match plan {
        Plan::Make {
            side: Side::Monitor,
            place: _,
            standing,
        } => Ok(Some(fresh(alloc, inventory, cells, standing)?)),
        _ => Ok(None),
    }
}

fn rearm(monitor: &mut KeptMonitor)
    ensures { IsRearmed monitor.old monitor.new }
{
    monitor.open.rearm();
}

impl OpenMonitors {
    // One more, at this place.
    fn put(&mut self, place: usize, monitor: KeptMonitor)
        requires place { place ≤ length self.old.monitors.items }
        requires few { length self.old.monitors.items < 32 }
        ensures { self.new.monitors.items ≡ insert self.old.monitors.items place monitor }
    {
        self.monitors.insert(place, monitor);
    }

    // The value sequences of the one at this place begin again.
    fn rearm(&mut self, place: usize)
        requires { place < length self.old.monitors.items }
        ensures { IsRearmedAt place self.old.monitors.items self.new.monitors.items }
    {
        if let Some(monitor) = self.monitors.get_mut(place) {
            rearm(monitor);
        }
    }

    // One less.
    fn remove(&mut self, place: usize)
        requires { place < length self.old.monitors.items }
        ensures { self.new.monitors.items ≡ remove self.old.monitors.items place }
    {
        let _ = self.monitors.remove(place);
    }

    fn follow_make(&mut self, side: Side, place: usize, made: Option<KeptMonitor>)
        requires { HasPlaceToMake (length self.old.monitors.items) side place made }
        ensures { IsMade side place made self.old.monitors.items self.new.monitors.items }
    {
        match (side, made) {
            (Side::Monitor, Some(monitor)) => self.put(place, monitor),
            _ => {}
        }
    }

    fn follow_move(&mut self, side: Side, place: usize, unlocked: bool)
        requires { HasPlaceAt (length self.old.monitors.items) side place }
        ensures { IsMoved side place unlocked self.old.monitors.items self.new.monitors.items }
    {
        match side {
            Side::Job => {}
            Side::Monitor => {
                if unlocked {
                    self.rearm(place);
                }
            }
        }
    }

    fn follow_delete(&mut self, side: Side, place: usize)
        requires { HasPlaceAt (length self.old.monitors.items) side place }
        ensures { IsDeleted side place self.old.monitors.items self.new.monitors.items }
    {
        match side {
            Side::Job => {}
            Side::Monitor => self.remove(place),
        }
    }

    fn follow_plan(&mut self, plan: &Plan, made: Option<KeptMonitor>)
        requires { HasPlace (length self.old.monitors.items) plan.now made }
        ensures { IsFollowed plan.now made self.old.monitors.items self.new.monitors.items }
    {
        match plan {
            Plan::Make {
                side,
                place,
                standing: _,
            } => self.follow_make(*side, *place, made),
            Plan::Same => {}
            Plan::Move {
                side,
                place,
                unlocked,
                moment: _,
            } => self.follow_move(*side, *place, *unlocked),
            Plan::Already => {}
            Plan::Delete {
                side,
                place,
                moment: _,
            } => self.follow_delete(*side, *place),
        }
    }

    /// Follows a plan of pm_jobs that is about to be enacted; `made` is what `prepare` made for it. It takes no memory.
    pub fn follow(&mut self, plan: &Plan, made: Option<KeptMonitor>)
        requires { HasPlace (length self.old.monitors.items) plan.now made }
        ensures open { (inventory : InventoryState) (jobs : JobsState) (h : History)
            → MayEnact inventory jobs h plan.now → IsFor inventory (tick_of (last_moment h)) plan.now made
            → MonitorsOpen inventory jobs h self.old.monitors.items
            → MonitorsOpen inventory (jobs_after jobs plan.now) (grown h (entries_of jobs plan.now)) self.new.monitors.items }
        ensures as_many { (jobs : JobsState) → length self.old.monitors.items ≡ length jobs.monitors
            → length self.new.monitors.items ≡ length (jobs_after jobs plan.now).monitors }
        ensures go_on { (cells : TickCells) (tick : ℕ) → IfSome made (GoesOn cells tick)
            → AllGoOn cells tick self.old.monitors.items → AllGoOn cells tick self.new.monitors.items }
    {
        self.follow_plan(plan, made);
    }
}
