//! What a start of the program makes of the monitors that stand: none of the ticks that it ends is counted.

ghost use Rattle.std.specs.Prelude.{◌≡◌, ◌≤◌, ◌<◌, ◌+◌, ◌^◌, ℕ, length, IfOk};
ghost use Rattle.pm_base.specs.Moment.{tick_of};
ghost use Rattle.pm_inventory.specs.Inventory.{InventoryState};
ghost use Rattle.pm_history.specs.declared.entry.Entry.TheVariants.{Boot};
ghost use Rattle.pm_history.specs.History.{History, ◌▷◌, IsHistory, size};
ghost use Rattle.pm_jobs.specs.State.{JobsState};
ghost use Rattle.pm_close.specs.declared.cells.TickCells.{TickCells};
ghost use Rattle.pm_close.specs.OpenMonitors.{AllGoOn, ReachesTo, AllReachTo, MonitorsOpen};
ghost use Rattle.pm_close.specs.MonitorPlans.{IsCutBy, all_enacted};

use crate::open_monitors::{KeptMonitor, OpenMonitors};
use crate::open_monitors_plan::MonitorPlan;
use std::alloc::{AllocError, Global};

// Ticks up to this one are over, and none of them is counted.
fn cut(monitor: &KeptMonitor, tick: u64) -> MonitorPlan
    requires reaches { ReachesTo tick monitor.now }
    requires in_range { tick < 2 ^ 63 }
    ensures { IsCutBy tick monitor.now result }
{
    let mut marks = monitor.open.marks;
    marks.end_uncounted(monitor.granularity, tick);
    MonitorPlan {
        marks,
        watches: None,
    }
}

fn cut_all(
    alloc: Global,
    monitors: &[KeptMonitor],
    tick: u64,
) -> Result<Vec<MonitorPlan>, AllocError>
    requires reach { AllReachTo tick monitors.now }
    requires in_range { tick < 2 ^ 63 }
    ensures as_many { IfOk result (λ plans. length plans.items ≡ length monitors.now) }
    ensures go_on { IfOk result (λ plans. (cells : TickCells) (from : ℕ) → AllGoOn cells from monitors.now
        → AllGoOn cells tick (all_enacted monitors.now plans.items)) }
    ensures open { (inventory : InventoryState) (jobs : JobsState) (h : History) (m : ℕ)
        → IsHistory (h ▷ Boot m) → 0 < size h → tick_of m ≡ tick → MonitorsOpen inventory jobs h monitors.now
        → IfOk result (λ plans. MonitorsOpen inventory jobs (h ▷ Boot m) (all_enacted monitors.now plans.items)) }
{
    let mut plans = Vec::new(alloc);
    for k in 0..monitors.len() {
        plans.push(cut(&monitors[k], tick))?;
    }
    Ok(plans)
}

impl OpenMonitors {
    /// A start of the program in the tick `tick` ends the open one and those between, and counts none of them: no crossing
    /// comes with them. Nothing changes before `enact`. It takes no longer than a granularity period has ticks.
    pub fn book_boot(&self, alloc: Global, tick: u64) -> Result<Vec<MonitorPlan>, AllocError>
        requires reach { AllReachTo tick self.now.monitors.items }
        requires in_range { tick < 2 ^ 63 }
        ensures as_many { IfOk result (λ plans. length plans.items ≡ length self.now.monitors.items) }
        ensures go_on { IfOk result (λ plans. (cells : TickCells) (from : ℕ) → AllGoOn cells from self.now.monitors.items
            → AllGoOn cells tick (all_enacted self.now.monitors.items plans.items)) }
        ensures open { (inventory : InventoryState) (jobs : JobsState) (h : History) (m : ℕ)
            → IsHistory (h ▷ Boot m) → 0 < size h → tick_of m ≡ tick → MonitorsOpen inventory jobs h self.now.monitors.items
            → IfOk result (λ plans. MonitorsOpen inventory jobs (h ▷ Boot m) (all_enacted self.now.monitors.items plans.items)) }
    {
        cut_all(alloc, self.monitors.as_slice(), tick)
    }
}
