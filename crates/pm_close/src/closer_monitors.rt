//! Ticks that end for all monitors, with a request or a start of the program.

ghost use Rattle.std.specs.Prelude.{◌≡◌, ◌≤◌, ◌<◌, ◌+◌, ◌^◌, ℕ, [], true, false, length, IfOk};
ghost use Rattle.pm_base.specs.Moment.{tick_of};
ghost use Rattle.pm_inventory.specs.Inventory.{InventoryState};
ghost use Rattle.pm_history.specs.declared.entry.Entry.TheVariants.{Now};
ghost use Rattle.pm_history.specs.History.{History, ◌▷◌, last_moment};
ghost use Rattle.pm_close.specs.Rows.{AreSmall};
ghost use Rattle.pm_close.specs.OpenMonitors.{AllGoOn, MonitorsOpen};
ghost use Rattle.pm_close.specs.MonitorPlans.{EndsWithNow, AreCrossings, all_enacted};
ghost use Rattle.pm_close.specs.DueReports.{ended_by};
ghost use Rattle.pm_close.specs.ClosedMonitors.{MonitorsEnd};

use crate::cells::TickCells;
use crate::open_monitors::OpenMonitors;
use crate::open_monitors_book::MonitorsBooking;
use pm_jobs::Jobs;
use pm_meas::Cell;
use std::alloc::{AllocError, Global};

/// A request, or a start of the program, ends the ticks up to this one for each monitor.
pub fn book_monitors(
    alloc: Global,
    monitors: &OpenMonitors,
    jobs: &Jobs,
    kept: &TickCells,
    row: &[Cell],
    cut: bool,
    boot: bool,
    tick: u64,
) -> Result<MonitorsBooking, AllocError>
    requires as_many { length monitors.now.monitors.items ≡ length jobs.now.monitors }
    requires go_on { AllGoOn kept.now (kept.now.first + kept.now.ticks) monitors.now.monitors.items }
    requires later { kept.now.first + kept.now.ticks ≤ tick }
    requires in_range { tick < 2 ^ 57 }
    requires wide { length row.now ≡ kept.now.slots }
    requires small { AreSmall row.now }
    ensures as_many { IfOk result (λ b. length b.plans.items ≡ length monitors.now.monitors.items) }
    ensures go_on { IfOk result (λ b. AllGoOn kept.now tick (all_enacted monitors.now.monitors.items b.plans.items)) }
    ensures open { (inventory : InventoryState) (h : History) (m : ℕ)
        → MonitorsEnd inventory jobs.now h m boot kept.now row.now cut tick
        → MonitorsOpen inventory jobs.now h monitors.now.monitors.items
        → IfOk result (λ b. MonitorsOpen inventory jobs.now (h ▷ ended_by boot m) (all_enacted monitors.now.monitors.items b.plans.items)) }
    ensures crossings { boot ≡ false → (inventory : InventoryState) (h : History) (m : ℕ)
        → EndsWithNow inventory jobs.now h m kept.now row.now cut tick
        → MonitorsOpen inventory jobs.now h monitors.now.monitors.items
        → IfOk result (λ b. AreCrossings inventory jobs.now (h ▷ Now m) (tick_of (last_moment h)) tick b.crossings.items) }
    ensures none { boot ≡ true → IfOk result (λ b. b.crossings.items ≡ []) }
{
    if boot {
        let plans = monitors.book_boot(alloc, tick)?;
        return Ok(MonitorsBooking {
            plans,
            crossings: Vec::new(alloc),
        });
    }
    monitors.book(alloc, jobs, kept, row, cut, tick)
}
