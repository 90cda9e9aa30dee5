//! Ticks that end for all jobs: ticks outside, jobs inside.

ghost use Rattle.std.specs.Prelude.{◌≡◌, ◌≤◌, ◌<◌, ◌+◌, ◌-◌, ◌^◌, ◌++◌, ◌&&◌, ◌==◌, ℕ, List, [], length, OnOk};
ghost use Rattle.pm_base.specs.Moment.{tick_of};
ghost use Rattle.pm_inventory.specs.Inventory.{InventoryState, slots};
ghost use Rattle.pm_history.specs.declared.entry.Side.TheVariants.{Job};
ghost use Rattle.pm_history.specs.declared.entry.Entry.TheVariants.{Boot, Now};
ghost use Rattle.pm_history.specs.History.{History, ◌▷◌, last_moment};
ghost use Rattle.pm_history.specs.Ticks.{behind};
ghost use Rattle.pm_history.specs.Files.{Report, files_at};
ghost use Rattle.pm_asked.specs.Asked.{terms_of};
ghost use Rattle.pm_close.specs.declared.due_report.DueReport.{DueReport};
ghost use Rattle.pm_close.specs.Rows.{AreSmall};
ghost use Rattle.pm_close.specs.OpenJobs.{ReadWithin, PlansFit, PlansStand};
ghost use Rattle.pm_close.specs.DueReports.{AreAmong, AreFiles, files_with, TickEnds, TicksEnd, GapEnds, AllEnd, ended_by};

use crate::cells::TickCells;
use crate::due_report::DueReport;
use crate::due_reports::{push_report, put_report};
use crate::open_job::OpenJob;
use crate::report::OpenReport;
use pm_jobs::{Jobs, Side};
use pm_meas::Cell;
use std::alloc::{AllocError, Global};

/// A request ends one more tick for each job. The reports that are due with it come after the earlier ones, in byte order
/// of id. The plans are spent after an `Err`.
pub fn end_tick(
    alloc: Global,
    jobs: &Jobs,
    open_jobs: &[OpenJob],
    kept: &TickCells,
    row: &[Cell],
    cut: bool,
    tick: u64,
    plans: &mut [OpenReport],
    reports: &mut Vec<DueReport>,
) -> Result<(), AllocError>
    requires paired { length jobs.now.jobs ≡ length open_jobs.now }
    requires slots { ReadWithin kept.now.slots open_jobs.now }
    requires fits { PlansFit kept.now tick open_jobs.now plans.old }
    requires wide { length row.now ≡ kept.now.slots }
    requires small { AreSmall row.now }
    requires ahead { kept.now.first ≤ tick }
    requires in_range { tick < 2 ^ 57 }
    ensures fits { OnOk result (PlansFit kept.now (tick + 1) open_jobs.now plans.new) }
    ensures among { AreAmong (length jobs.now.jobs) reports.old.items → OnOk result (AreAmong (length jobs.now.jobs) reports.new.items) }
    ensures stands { (inventory : InventoryState) (h : History) (m : ℕ)
        → TickEnds inventory h m kept.now row.now cut tick jobs.now.jobs open_jobs.now plans.old
        → OnOk result (PlansStand inventory (h ▷ Now m) (tick + 1) jobs.now.jobs open_jobs.now plans.new) }
    ensures files { (inventory : InventoryState) (h : History) (m : ℕ) (files : List Report)
        → TickEnds inventory h m kept.now row.now cut tick jobs.now.jobs open_jobs.now plans.old
        → AreFiles inventory jobs.now.jobs open_jobs.now files reports.old.items
        → OnOk result (AreFiles inventory jobs.now.jobs open_jobs.now (files ++ files_with inventory jobs.now.jobs (h ▷ Now m) (tick + 1)) reports.new.items) }
{
    for k in 0..jobs.count(Side::Job) {
        let due = open_jobs[k as usize].end_tick(
            alloc,
            kept,
            row,
            jobs.at(Side::Job, k),
            k,
            cut,
            tick,
            &mut plans[k as usize],
        )?;
        push_report(reports, due)?;
    }
    Ok(())
}

// Whether a start of the program cuts a tick, where none cuts a later one than the first.
fn is_cut(cut: bool, first: u64, tick: u64) -> bool
    ensures { result ≡ (cut && (tick == first)) }
{
    cut && tick == first
}

/// A request ends the ticks up to this one for each job. The reports that are due come by end, then in byte order of id.
/// The plans are spent after an `Err`.
pub fn end_ticks(
    alloc: Global,
    jobs: &Jobs,
    open_jobs: &[OpenJob],
    kept: &TickCells,
    row: &[Cell],
    cut: bool,
    tick: u64,
    plans: &mut [OpenReport],
    reports: &mut Vec<DueReport>,
) -> Result<(), AllocError>
    requires paired { length jobs.now.jobs ≡ length open_jobs.now }
    requires slots { ReadWithin kept.now.slots open_jobs.now }
    requires fits { PlansFit kept.now (kept.now.first + kept.now.ticks) open_jobs.now plans.old }
    requires wide { length row.now ≡ kept.now.slots }
    requires small { AreSmall row.now }
    requires later { kept.now.first + kept.now.ticks ≤ tick }
    requires in_range { tick < 2 ^ 57 }
    ensures fits { OnOk result (PlansFit kept.now tick open_jobs.now plans.new) }
    ensures among { AreAmong (length jobs.now.jobs) reports.old.items → OnOk result (AreAmong (length jobs.now.jobs) reports.new.items) }
    ensures stands { (inventory : InventoryState) (h : History) (m : ℕ)
        → TicksEnd inventory h m kept.now row.now cut tick jobs.now.jobs open_jobs.now plans.old
        → OnOk result (PlansStand inventory (h ▷ Now m) tick jobs.now.jobs open_jobs.now plans.new) }
    ensures files { (inventory : InventoryState) (h : History) (m n : ℕ)
        → TicksEnd inventory h m kept.now row.now cut tick jobs.now.jobs open_jobs.now plans.old
        → tick ≡ tick_of (last_moment h) + n → reports.old.items ≡ []
        → OnOk result (AreFiles inventory jobs.now.jobs open_jobs.now (behind (files_with inventory jobs.now.jobs (h ▷ Now m)) (tick_of (last_moment h)) n) reports.new.items) }
{
    let first = kept.end();
    for t in first..tick {
        let boots = is_cut(cut, first, t);
        end_tick(alloc, jobs, open_jobs, kept, row, boots, t, plans, reports)?;
    }
    Ok(())
}

/// A start of the program ends the ticks up to this one for each job: of each at most the report that was open is due. They
/// come by end, then in byte order of id. The plans are spent after an `Err`.
pub fn end_gap(
    alloc: Global,
    jobs: &Jobs,
    open_jobs: &[OpenJob],
    kept: &TickCells,
    row: &[Cell],
    tick: u64,
    plans: &mut [OpenReport],
    reports: &mut Vec<DueReport>,
) -> Result<(), AllocError>
    requires paired { length jobs.now.jobs ≡ length open_jobs.now }
    requires slots { ReadWithin kept.now.slots open_jobs.now }
    requires fits { PlansFit kept.now (kept.now.first + kept.now.ticks) open_jobs.now plans.old }
    requires wide { length row.now ≡ kept.now.slots }
    requires small { AreSmall row.now }
    requires later { kept.now.first + kept.now.ticks ≤ tick }
    requires in_range { tick < 2 ^ 57 }
    ensures fits { OnOk result (PlansFit kept.now tick open_jobs.now plans.new) }
    ensures among { AreAmong (length jobs.now.jobs) reports.old.items → OnOk result (AreAmong (length jobs.now.jobs) reports.new.items) }
    ensures stands { (inventory : InventoryState) (h : History) (m : ℕ)
        → GapEnds inventory h m kept.now row.now tick jobs.now.jobs open_jobs.now plans.old
        → OnOk result (PlansStand inventory (h ▷ Boot m) tick jobs.now.jobs open_jobs.now plans.new) }
    ensures files { (inventory : InventoryState) (h : History) (m n : ℕ)
        → GapEnds inventory h m kept.now row.now tick jobs.now.jobs open_jobs.now plans.old
        → tick ≡ tick_of (last_moment h) + n → reports.old.items ≡ []
        → OnOk result (AreFiles inventory jobs.now.jobs open_jobs.now (behind (files_with inventory jobs.now.jobs (h ▷ Boot m)) (tick_of (last_moment h)) n) reports.new.items) }
{
    for k in 0..jobs.count(Side::Job) {
        let due = open_jobs[k as usize].end_with_boot(
            alloc,
            kept,
            row,
            k,
            tick,
            &mut plans[k as usize],
        )?;
        put_report(reports, due)?;
    }
    Ok(())
}

/// A request, or a start of the program, ends the ticks up to this one for each job.
pub fn end_all(
    alloc: Global,
    jobs: &Jobs,
    open_jobs: &[OpenJob],
    kept: &TickCells,
    row: &[Cell],
    cut: bool,
    boot: bool,
    tick: u64,
    plans: &mut [OpenReport],
    reports: &mut Vec<DueReport>,
) -> Result<(), AllocError>
    requires paired { length jobs.now.jobs ≡ length open_jobs.now }
    requires slots { ReadWithin kept.now.slots open_jobs.now }
    requires fits { PlansFit kept.now (kept.now.first + kept.now.ticks) open_jobs.now plans.old }
    requires wide { length row.now ≡ kept.now.slots }
    requires small { AreSmall row.now }
    requires later { kept.now.first + kept.now.ticks ≤ tick }
    requires in_range { tick < 2 ^ 57 }
    ensures fits { OnOk result (PlansFit kept.now tick open_jobs.now plans.new) }
    ensures among { AreAmong (length jobs.now.jobs) reports.old.items → OnOk result (AreAmong (length jobs.now.jobs) reports.new.items) }
    ensures stands { (inventory : InventoryState) (h : History) (m : ℕ)
        → AllEnd inventory h m boot kept.now row.now cut tick jobs.now.jobs open_jobs.now plans.old
        → OnOk result (PlansStand inventory (h ▷ ended_by boot m) tick jobs.now.jobs open_jobs.now plans.new) }
    ensures files { (inventory : InventoryState) (h : History) (m n : ℕ)
        → AllEnd inventory h m boot kept.now row.now cut tick jobs.now.jobs open_jobs.now plans.old
        → tick ≡ tick_of (last_moment h) + n → reports.old.items ≡ []
        → OnOk result (AreFiles inventory jobs.now.jobs open_jobs.now (behind (files_with inventory jobs.now.jobs (h ▷ ended_by boot m)) (tick_of (last_moment h)) n) reports.new.items) }
{
    if boot {
        end_gap(alloc, jobs, open_jobs, kept, row, tick, plans, reports)?;
    } else {
        end_ticks(alloc, jobs, open_jobs, kept, row, cut, tick, plans, reports)?;
    }
    Ok(())
}
