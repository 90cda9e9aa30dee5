//! What ticks that end make of the monitors that stand, before it is kept.

ghost use Rattle.std.specs.Prelude.{◌≡◌, ◌≤◌, ◌<◌, ◌+◌, ◌&&◌, ◌==◌, ◌^◌, ℕ, List, [], length, OnOk, IfOk};
ghost use Rattle.pm_base.specs.Moment.{tick_of};
ghost use Rattle.pm_inventory.specs.Inventory.{InventoryState};
ghost use Rattle.pm_history.specs.declared.entry.Entry.TheVariants.{Boot, Now};
ghost use Rattle.pm_history.specs.History.{History, ◌▷◌, last_moment};
ghost use Rattle.pm_close.specs.Rows.{AreSmall};
ghost use Rattle.pm_close.specs.OpenMonitors.{AllGoOn, MonitorsOpen};
ghost use Rattle.pm_close.specs.MonitorPlans.{EndsWithNow, AreCrossings, all_enacted};

use crate::cells::TickCells;
use crate::open_monitors::{KeptMonitor, OpenMonitors};
use crate::open_monitors_plan::MonitorPlan;
use crate::open_monitors_tick::{EndCrossings, end_monitors};
use pm_jobs::Jobs;
use pm_meas::Cell;
use std::alloc::{AllocError, Global};

/// What a request that ends ticks makes of the monitors that stand, and the crossings that come with it.
#[derive(Drop)]
pub struct MonitorsBooking {
    /// For `OpenMonitors::enact`.
    pub plans: Vec<MonitorPlan>,
    /// Those at the end of each tick that ends, the open one first.
    pub crossings: Vec<EndCrossings>,
}

// A plan for each monitor, with which nothing changes.
fn plans_of(alloc: Global, monitors: &[KeptMonitor]) -> Result<Vec<MonitorPlan>, AllocError>
    ensures as_many { IfOk result (λ v. length v.items ≡ length monitors.now) }
    ensures same { IfOk result (λ v. all_enacted monitors.now v.items ≡ monitors.now) }
{
    let mut plans = Vec::new(alloc);
    for k in 0..monitors.len() {
        plans.push(MonitorPlan::new(&monitors[k]))?;
    }
    Ok(plans)
}

// A start of the program cuts the open tick or not, and no later one yet.
fn cuts(cut: bool, open_tick: u64, tick: u64) -> bool
    ensures { result ≡ (cut && tick == open_tick) }
{
    cut && tick == open_tick
}

// The ticks from the open one up to another end, one by one.
fn end_ticks(
    alloc: Global,
    jobs: &Jobs,
    monitors: &[KeptMonitor],
    plans: &mut [MonitorPlan],
    kept: &TickCells,
    row: &[Cell],
    cut: bool,
    tick: u64,
) -> Result<Vec<EndCrossings>, AllocError>
    requires as_many { length monitors.now ≡ length jobs.now.monitors }
    requires few { length monitors.now ≤ 32 }
    requires plans { length plans.old ≡ length monitors.now }
    requires go_on { AllGoOn kept.now (kept.now.first + kept.now.ticks) (all_enacted monitors.now plans.old) }
    requires later { kept.now.first + kept.now.ticks ≤ tick }
    requires in_range { tick < 2 ^ 57 }
    requires wide { length row.now ≡ kept.now.slots }
    requires small { AreSmall row.now }
    ensures go_on { OnOk result (AllGoOn kept.now tick (all_enacted monitors.now plans.new)) }
    ensures open { (inventory : InventoryState) (h : History) (m : ℕ)
        → EndsWithNow inventory jobs.now h m kept.now row.now cut tick
        → MonitorsOpen inventory jobs.now h (all_enacted monitors.now plans.old)
        → OnOk result (MonitorsOpen inventory jobs.now (h ▷ Now m) (all_enacted monitors.now plans.new)) }
    ensures crossings { (inventory : InventoryState) (h : History) (m : ℕ)
        → EndsWithNow inventory jobs.now h m kept.now row.now cut tick
        → MonitorsOpen inventory jobs.now h (all_enacted monitors.now plans.old)
        → IfOk result (λ ends. AreCrossings inventory jobs.now (h ▷ Now m) (tick_of (last_moment h)) tick ends.items) }
{
    let open_tick = kept.end();
    let mut ends = Vec::new(alloc);
    for t in open_tick..tick {
        let cut = cuts(cut, open_tick, t);
        ends.push(end_monitors(alloc, jobs, monitors, plans, kept, row, cut, t)?)?;
    }
    Ok(ends)
}

impl OpenMonitors {
    /// A request in the tick `tick` ends the open one, whose cells are `row`, and those between; `cut` says whether a start
    /// of the program cuts the open one. Nothing changes before `enact`. Watches are copied of the monitors of which a
    /// granularity period ends.
    pub fn book(
        &self,
        alloc: Global,
        jobs: &Jobs,
        kept: &TickCells,
        row: &[Cell],
        cut: bool,
        tick: u64,
    ) -> Result<MonitorsBooking, AllocError>
        requires as_many { length self.now.monitors.items ≡ length jobs.now.monitors }
        requires go_on { AllGoOn kept.now (kept.now.first + kept.now.ticks) self.now.monitors.items }
        requires later { kept.now.first + kept.now.ticks ≤ tick }
        requires in_range { tick < 2 ^ 57 }
        requires wide { length row.now ≡ kept.now.slots }
        requires small { AreSmall row.now }
        ensures as_many { IfOk result (λ b. length b.plans.items ≡ length self.now.monitors.items) }
        ensures go_on { IfOk result (λ b. AllGoOn kept.now tick (all_enacted self.now.monitors.items b.plans.items)) }
        ensures open { (inventory : InventoryState) (h : History) (m : ℕ)
            → EndsWithNow inventory jobs.now h m kept.now row.now cut tick
            → MonitorsOpen inventory jobs.now h self.now.monitors.items
            → IfOk result (λ b. MonitorsOpen inventory jobs.now (h ▷ Now m) (all_enacted self.now.monitors.items b.plans.items)) }
        ensures crossings { (inventory : InventoryState) (h : History) (m : ℕ)
            → EndsWithNow inventory jobs.now h m kept.now row.now cut tick
            → MonitorsOpen inventory jobs.now h self.now.monitors.items
            → IfOk result (λ b. AreCrossings inventory jobs.now (h ▷ Now m) (tick_of (last_moment h)) tick b.crossings.items) }
    {
        let monitors = self.monitors.as_slice();
        let mut plans = plans_of(alloc, monitors)?;
        let open = plans.as_mut_slice();
        let crossings = end_ticks(alloc, jobs, monitors, open, kept, row, cut, tick)?;
        Ok(MonitorsBooking { plans, crossings })
    }
}
