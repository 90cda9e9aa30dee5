//! Plans of all jobs: made, and enacted.

ghost use Rattle.std.specs.Prelude.{◌≡◌, ◌≤◌, ◌<◌, ◌+◌, ℕ, List, length, slice_index_or, IfOk};
ghost use Rattle.pm_close.specs.declared.open_job.OpenJob.{OpenJob};
ghost use Rattle.pm_inventory.specs.Inventory.{InventoryState};
ghost use Rattle.pm_history.specs.History.{History};
ghost use Rattle.pm_jobs.specs.declared.standing.Standing.{Standing};
ghost use Rattle.pm_close.specs.declared.cells.TickCells.{TickCells};
ghost use Rattle.pm_close.specs.OpenJobs.{ReportsFit, ReportsStand, ReadWithin, AreAsked, PlansFit, PlansStand, PlansSuit};

use crate::open_job::OpenJob;
use crate::report::OpenReport;
use std::alloc::{AllocError, Global};

/// Plans that go on from what is kept of each job.
pub fn plan_all(alloc: Global, jobs: &[OpenJob]) -> Result<Vec<OpenReport>, AllocError>
    ensures fits { (kept : TickCells) (tick : ℕ) → ReportsFit kept tick jobs.now → IfOk result (λ plans. PlansFit kept tick jobs.now plans.items) }
    ensures stands { (inventory : InventoryState) (h : History) (tick : ℕ) (standing : List Standing) → length standing ≡ length jobs.now
        → ReportsStand inventory h tick standing jobs.now → IfOk result (λ plans. PlansStand inventory h tick standing jobs.now plans.items) }
{
    let mut plans = Vec::with_capacity(alloc, jobs.len())?;
    for k in 0..jobs.len() {
        plans.push(jobs[k].plan(alloc))?;
    }
    Ok(plans)
}

/// Each job takes what its plan came to.
pub fn enact_all(jobs: &mut [OpenJob], plans: Vec<OpenReport>)
    requires { PlansSuit jobs.old plans.items }
    ensures stands { (inventory : InventoryState) (h : History) (tick : ℕ) (standing : List Standing)
        → length standing ≡ length jobs.old → PlansStand inventory h tick standing jobs.old plans.items
        → ReportsStand inventory h tick standing jobs.new }
    ensures asked { (inventory : InventoryState) (standing : List Standing) → length standing ≡ length jobs.old
        → AreAsked inventory standing jobs.old → AreAsked inventory standing jobs.new }
    ensures fits { (kept : TickCells) (tick : ℕ) → PlansFit kept tick jobs.old plans.items → ReportsFit kept tick jobs.new }
    ensures within { (width : ℕ) → ReadWithin width jobs.old → ReadWithin width jobs.new }
{
    let mut plans = plans;
    for k in 0..jobs.len() {
        let plan = plans.remove(0);
        jobs[k].enact(plan);
    }
}

/// The first tick whose cells the open granularity periods of jobs need, before this one.
pub fn first_needed(jobs: &[OpenJob], tick: u64) -> u64
    ensures most { result ≤ tick }
    ensures begun { (k : ℕ) (job : OpenJob) → k < length jobs.now → result ≤ (slice_index_or jobs.now k job).report.marks.begin }
    ensures near { (n : ℕ) → 0 < n → ((k : ℕ) (job : OpenJob) → k < length jobs.now → tick < (slice_index_or jobs.now k job).report.marks.begin + n) → tick < result + n }
{
    let mut from = tick;
    for job in jobs {
        from = from.min(job.report().marks().begin());
    }
    from
}
