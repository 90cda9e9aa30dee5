//! What is kept of the jobs that stand.

ghost use Rattle.std.specs.Prelude.{◌≡◌, ◌≤◌, ◌<◌, ◌+◌, ◌^◌, ℕ, List, [], length, insert, remove, IfOk, IfSome, vec_capacity};
ghost use Rattle.pm_base.specs.Moment.{tick_of};
ghost use Rattle.pm_inventory.specs.Inventory.{InventoryState};
ghost use Rattle.pm_history.specs.History.{History, IsHistory, grown, last_moment};
ghost use Rattle.pm_jobs.specs.declared.standing.Standing.{Standing};
ghost use Rattle.pm_jobs.specs.declared.jobs.TheConstants.{MOST_STANDING};
ghost use Rattle.pm_jobs.specs.State.{JobsState};
ghost use Rattle.pm_jobs.specs.Plan.{Suits, IsOver, entries_of, jobs_after};
ghost use Rattle.pm_close.specs.declared.open_job.OpenJob.{OpenJob};
ghost use Rattle.pm_close.specs.declared.cells.TickCells.{TickCells};

use crate::made_on::made_on;
use crate::open_job::OpenJob;
use crate::planned::enact_all;
use crate::report::OpenReport;
use pm_inventory::Inventory;
use pm_jobs::{MOST_STANDING, Plan, Side};
use std::alloc::{AllocError, Global};

/// What is kept of each job that stands, in byte order of their ids.
#[derive(Drop)]
pub struct OpenJobs {
    jobs: Vec<OpenJob>,
    ghost room: { MOST_STANDING ≤ vec_capacity jobs },
}

impl OpenJobs {
    ghost use Rattle.pm_close.specs.OpenJobs.{ReportsFit, ReportsStand, ReadWithin, AreAsked, PlansFit, PlansStand, PlansSuit, JobsOpen};
    ghost use Rattle.pm_close.specs.Following.{ComesWith, CanFollow, followed, inserted};

    /// None, with the room for all that may stand.
    pub fn new(alloc: Global) -> Result<OpenJobs, AllocError>
        ensures { IfOk result (λ jobs. jobs.jobs.items ≡ []) }
    {
        Ok(OpenJobs {
            jobs: Vec::with_capacity(alloc, MOST_STANDING)?,
        })
    }

    /// One for each job.
    pub fn jobs(&self) -> &[OpenJob]
        ensures { result.now ≡ self.now.jobs.items }
    {
        &self.jobs
    }

    /// What will be kept of the job that a plan makes in a tick, if it makes one.
    pub fn plan(
        alloc: Global,
        inventory: &Inventory,
        plan: &Plan,
        tick: u64,
    ) -> Result<Option<OpenJob>, AllocError>
        requires in_range { tick < 2 ^ 63 }
        ensures { IfOk result (ComesWith inventory.now tick plan.now) }
    {
        match plan {
            Plan::Make { side, standing, .. } => {
                made_on(alloc, inventory, *side, standing, tick)
            }
            Plan::Same | Plan::Move { .. } | Plan::Already | Plan::Delete { .. } => Ok(None),
        }
    }

    /// Follows a change of the jobs, before they make it themselves. It takes no memory.
    pub fn follow(&mut self, plan: &Plan, made: Option<OpenJob>)
        requires { CanFollow self.old.jobs.items plan.now made }
        ensures after { self.new.jobs.items ≡ followed self.old.jobs.items plan.now made }
        ensures stands { (inventory : InventoryState) (jobs : JobsState) (h : History) → Suits jobs plan.now → IsOver inventory plan.now
            → ComesWith inventory (tick_of (last_moment h)) plan.now made → IsHistory (grown h (entries_of jobs plan.now))
            → JobsOpen inventory h jobs.jobs self.old.jobs.items
            → JobsOpen inventory (grown h (entries_of jobs plan.now)) (jobs_after jobs plan.now).jobs self.new.jobs.items }
    {
        self.change(plan, made);
    }

    fn change(&mut self, plan: &Plan, made: Option<OpenJob>)
        requires { CanFollow self.old.jobs.items plan.now made }
        ensures { self.new.jobs.items ≡ followed self.old.jobs.items plan.now made }
    {
        match plan {
            Plan::Make {
                side: Side::Job,
                place,
                standing: _,
            } => self.put(*place, made),
            Plan::Delete {
                side: Side::Job,
                place,
                moment: _,
            } => self.remove(*place),
            _ => {}
        }
    }

    fn put(&mut self, place: usize, made: Option<OpenJob>)
        requires { IfSome made (λ job. (place ≤ length self.old.jobs.items) × (length self.old.jobs.items < MOST_STANDING)) }
        ensures { self.new.jobs.items ≡ inserted self.old.jobs.items place made }
    {
        if let Some(job) = made {
            insert_at(&mut self.jobs, place, job);
        }
    }

    fn remove(&mut self, place: usize)
        requires { place < length self.old.jobs.items }
        ensures { self.new.jobs.items ≡ remove self.old.jobs.items place }
    {
        drop(self.jobs.remove(place));
    }

    /// Takes what plans came to, one of each job. It takes no memory.
    pub fn enact(&mut self, plans: Vec<OpenReport>)
        requires { PlansSuit self.old.jobs.items plans.items }
        ensures as_many { length self.new.jobs.items ≡ length self.old.jobs.items }
        ensures stands { (inventory : InventoryState) (h : History) (tick : ℕ) (jobs : List Standing)
            → length jobs ≡ length self.old.jobs.items → PlansStand inventory h tick jobs self.old.jobs.items plans.items
            → ReportsStand inventory h tick jobs self.new.jobs.items }
        ensures asked { (inventory : InventoryState) (jobs : List Standing) → length jobs ≡ length self.old.jobs.items
            → AreAsked inventory jobs self.old.jobs.items → AreAsked inventory jobs self.new.jobs.items }
        ensures fits { (kept : TickCells) (tick : ℕ) → PlansFit kept tick self.old.jobs.items plans.items → ReportsFit kept tick self.new.jobs.items }
        ensures within { (width : ℕ) → ReadWithin width self.old.jobs.items → ReadWithin width self.new.jobs.items }
    {
        enact_all(self.jobs.as_mut_slice(), plans);
    }
}

// Puts one in at a place, for which there is room.
fn insert_at(jobs: &mut Vec<OpenJob>, place: usize, job: OpenJob)
    requires within { place ≤ length jobs.old.items }
    requires room { length jobs.old.items < vec_capacity jobs.old }
    ensures inserted { jobs.new.items ≡ insert jobs.old.items place job }
    ensures room { vec_capacity jobs.old ≤ vec_capacity jobs.new }
{
    match jobs.insert(place, job) {
        Ok(()) => {}
        Err(_) => unreachable!(),
    }
}
