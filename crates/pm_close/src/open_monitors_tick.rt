//! One tick ends for the monitors that stand.

ghost use Rattle.std.specs.Prelude.{◌≡◌, ◌≤◌, ◌<◌, ◌+◌, ◌++◌, ◌^◌, ℕ, List, [], length, slice_index_or, OnOk, IfOk, Some};
ghost use Rattle.pm_base.specs.Moment.{tick_of};
ghost use Rattle.pm_inventory.specs.Inventory.{InventoryState};
ghost use Rattle.pm_history.specs.declared.entry.Entry.TheVariants.{Now};
ghost use Rattle.pm_history.specs.History.{History, ◌▷◌, IsHistory, is_cut, last_moment};
ghost use Rattle.pm_history.specs.Standing as history;
ghost use Rattle.pm_history.specs.Counted.{is_counted};
ghost use Rattle.pm_history.specs.Notices.{crossings_under, crossings_at};
ghost use Rattle.pm_asked.specs.Asked.{terms_of};
ghost use Rattle.pm_jobs.specs.State.{ids};
ghost use Rattle.pm_jobs.specs.Stands.{Stands, StandsFor};
ghost use Rattle.pm_close.specs.Rows.{AreSmall};
ghost use Rattle.pm_close.specs.Watched.{all_crossed};
ghost use Rattle.pm_close.specs.OpenMonitors.{GoesOn, AllGoOn, IsKeptUnder, AreKept};
ghost use Rattle.pm_close.specs.MonitorPlans.{TickEnds, enacted, all_enacted, all_told, crossings_in_place};

use crate::cells::TickCells;
use crate::crossing::Crossing;
use crate::marks::counts;
use crate::open_monitors::KeptMonitor;
use crate::open_monitors_plan::MonitorPlan;
use pm_history::Side;
use pm_jobs::{Jobs, Standing};
use pm_meas::Cell;
use std::alloc::{AllocError, Global};

/// A crossing of the monitor at a place in byte order of id.
#[derive(Clone, Copy, Debug, PartialEq, Eq)]
pub struct MonitorCrossing {
    pub monitor: u8,
    pub crossing: Crossing,
}

/// The crossings at one end: by monitor in byte order of id, then by threshold, by metric in catalogue order, by object in
/// tree order.
#[derive(Drop)]
pub struct EndCrossings {
    pub crossings: Vec<MonitorCrossing>,
}

// Whether a tick that a request ends is counted for a monitor that stands so.
fn counts_for(standing: &Standing, cut: bool, tick: u64) -> bool
    requires { tick < 2 ^ 57 }
    ensures { (inventory : InventoryState) (h : History) (m : ℕ) (s : history.Standing)
        → IsHistory h → StandsFor inventory Side.Monitor h standing.now
        → history.standing_after (terms_of inventory) Side.Monitor h standing.now.id ≡ Some s
        → is_cut h tick ≡ cut → tick_of (last_moment h) ≤ tick → tick < tick_of m
        → result ≡ is_counted (terms_of inventory) (h ▷ Now m) (history.making_of Side.Monitor standing.now.id s) tick }
{
    counts(cut, standing.changed, standing.unlocked, tick)
}

// One more tick is over for a monitor: the crossings that come with it.
fn end_monitor(
    alloc: Global,
    monitor: &KeptMonitor,
    plan: &mut MonitorPlan,
    standing: &Standing,
    kept: &TickCells,
    row: &[Cell],
    cut: bool,
    tick: u64,
) -> Result<Vec<Crossing>, AllocError>
    requires goes_on { GoesOn kept.now tick (enacted monitor.now plan.old) }
    requires ahead { kept.now.first ≤ tick }
    requires in_range { tick < 2 ^ 57 }
    requires wide { length row.now ≡ kept.now.slots }
    requires small { AreSmall row.now }
    ensures goes_on { OnOk result (GoesOn kept.now (tick + 1) (enacted monitor.now plan.new)) }
    ensures open { (inventory : InventoryState) (h : History) (m : ℕ)
        → TickEnds inventory h m kept.now row.now cut tick → StandsFor inventory Side.Monitor h standing.now
        → IsKeptUnder inventory (h ▷ Now m) tick standing.now.id (enacted monitor.now plan.old)
        → OnOk result (IsKeptUnder inventory (h ▷ Now m) (tick + 1) standing.now.id (enacted monitor.now plan.new)) }
    ensures crossings { (inventory : InventoryState) (h : History) (m : ℕ)
        → TickEnds inventory h m kept.now row.now cut tick → StandsFor inventory Side.Monitor h standing.now
        → IsKeptUnder inventory (h ▷ Now m) tick standing.now.id (enacted monitor.now plan.old)
        → IfOk result (λ crossings. all_crossed standing.now.id (tick + 1) crossings.items
        ≡ crossings_under (terms_of inventory) (h ▷ Now m) (tick + 1) standing.now.id) }
{
    let mark = counts_for(standing, cut, tick);
    plan.end_tick(alloc, monitor, kept, row, mark)
}

// Puts the crossings of the monitor at a place behind those of earlier ones.
fn add_crossings(
    all: &mut Vec<MonitorCrossing>,
    monitor: u8,
    crossings: &[Crossing],
) -> Result<(), AllocError>
    ensures { OnOk result (all.new.items ≡ all.old.items ++ crossings_in_place monitor crossings.now) }
{
    for k in 0..crossings.len() {
        let crossing = crossings[k];
        all.push(MonitorCrossing { monitor, crossing })?;
    }
    Ok(())
}

/// One more tick is over for the monitors that stand: the crossings that come with it. Plans are spent after an `Err`.
pub(crate) fn end_monitors(
    alloc: Global,
    jobs: &Jobs,
    monitors: &[KeptMonitor],
    plans: &mut [MonitorPlan],
    kept: &TickCells,
    row: &[Cell],
    cut: bool,
    tick: u64,
) -> Result<EndCrossings, AllocError>
    requires as_many { length monitors.now ≡ length jobs.now.monitors }
    requires few { length monitors.now ≤ 32 }
    requires plans { length plans.old ≡ length monitors.now }
    requires go_on { AllGoOn kept.now tick (all_enacted monitors.now plans.old) }
    requires ahead { kept.now.first ≤ tick }
    requires in_range { tick < 2 ^ 57 }
    requires wide { length row.now ≡ kept.now.slots }
    requires small { AreSmall row.now }
    ensures go_on { OnOk result (AllGoOn kept.now (tick + 1) (all_enacted monitors.now plans.new)) }
    ensures open { (inventory : InventoryState) (h : History) (m : ℕ)
        → TickEnds inventory h m kept.now row.now cut tick → Stands inventory jobs.now h
        → AreKept inventory (h ▷ Now m) tick (ids jobs.now.monitors) (all_enacted monitors.now plans.old)
        → OnOk result (AreKept inventory (h ▷ Now m) (tick + 1) (ids jobs.now.monitors) (all_enacted monitors.now plans.new)) }
    ensures crossings { (inventory : InventoryState) (h : History) (m : ℕ)
        → TickEnds inventory h m kept.now row.now cut tick → Stands inventory jobs.now h
        → AreKept inventory (h ▷ Now m) tick (ids jobs.now.monitors) (all_enacted monitors.now plans.old)
        → IfOk result (λ end. all_told (ids jobs.now.monitors) (tick + 1) end.crossings.items
        ≡ crossings_at (terms_of inventory) (h ▷ Now m) (tick + 1)) }
{
    let mut crossings = Vec::new(alloc);
    for k in 0..plans.len() {
        let standing = jobs.at(Side::Monitor, k as u8);
        let new = end_monitor(
            alloc,
            &monitors[k],
            &mut plans[k],
            standing,
            kept,
            row,
            cut,
            tick,
        )?;
        add_crossings(&mut crossings, k as u8, &new)?;
    }
    Ok(EndCrossings { crossings })
}
