//! What ticks that end make of the monitors that stand, as it is kept.

ghost use Rattle.std.specs.Prelude.{◌≡◌, ◌≤◌, ◌<◌, ◌+◌, ℕ, length};
ghost use Rattle.pm_close.specs.declared.cells.TickCells.{TickCells};
ghost use Rattle.pm_close.specs.declared.limits.TheConstants.{MOST_TICKS};
ghost use Rattle.pm_close.specs.OpenMonitors.{AllGoOn, IsFirstNeeded};
ghost use Rattle.pm_close.specs.MonitorPlans.{enacted, all_enacted};

use crate::open_monitors::{KeptMonitor, OpenMonitors};
use crate::open_monitors_plan::MonitorPlan;

fn enact_one(monitor: &mut KeptMonitor, plan: &mut MonitorPlan)
    ensures { monitor.new ≡ enacted monitor.old plan.old }
{
    monitor.open.marks = plan.marks;
    if let Some(watches) = plan.watches.take() {
        monitor.open.watches = watches;
    }
}

fn enact_all(monitors: &mut [KeptMonitor], plans: &mut [MonitorPlan])
    requires { length plans.old ≡ length monitors.old }
    ensures { monitors.new ≡ all_enacted monitors.old plans.old }
{
    for k in 0..monitors.len() {
        enact_one(&mut monitors[k], &mut plans[k]);
    }
}

fn first_of(monitors: &[KeptMonitor], tick: u64) -> u64
    ensures first { IsFirstNeeded tick monitors.now result }
    ensures near { (cells : TickCells) → AllGoOn cells tick monitors.now → tick < result + MOST_TICKS }
{
    let mut first = tick;
    for k in 0..monitors.len() {
        first = first.min(monitors[k].open.marks.begin());
    }
    first
}

impl OpenMonitors {
    /// Keeps what plans say, each of the monitor at its place. It takes no memory.
    pub fn enact(&mut self, plans: Vec<MonitorPlan>)
        requires { length plans.items ≡ length self.old.monitors.items }
        ensures { self.new.monitors.items ≡ all_enacted self.old.monitors.items plans.items }
    {
        let mut plans = plans;
        let open = self.monitors.as_mut_slice();
        enact_all(open, plans.as_mut_slice());
    }

    /// The first tick of which open granularity periods need cells; the open one, `tick`, where none stands.
    pub fn first_needed(&self, tick: u64) -> u64
        ensures first { IsFirstNeeded tick self.now.monitors.items result }
        ensures near { (cells : TickCells) → AllGoOn cells tick self.now.monitors.items → tick < result + MOST_TICKS }
    {
        first_of(self.monitors.as_slice(), tick)
    }
}
