//! What ends with a minute, over all jobs.

ghost use Rattle.std.specs.Prelude.{◌≡◌, ◌≤◌, ◌<◌, ◌+◌, ◌-◌, ◌*◌, ◌^◌, ℕ, [], true, false, length, slice_index_or, IfOk, vec_capacity};
ghost use Rattle.pm_base.specs.Moment.{IsMoment, tick_of};
ghost use Rattle.pm_inventory.specs.Inventory.{InventoryState, slots};
ghost use Rattle.pm_history.specs.History.{History, Start, ◌▷◌, IsHistory, grown, last_moment};
ghost use Rattle.pm_jobs.specs.State.{JobsState};
ghost use Rattle.pm_jobs.specs.Plan.{Suits as SuitsJobs, IsOver, entries_of, jobs_after};
ghost use Rattle.pm_jobs.specs.Stands.{Stands};
ghost use Rattle.pm_close.specs.declared.limits.TheConstants.{MOST_TICKS};
ghost use Rattle.pm_close.specs.declared.open_job.OpenJob.{OpenJob};
ghost use Rattle.pm_close.specs.Rows.{AreSmall};
ghost use Rattle.pm_close.specs.OpenJobs.{JobsFit, earlier_parts};
ghost use Rattle.pm_close.specs.OpenMonitors.{AllGoOn};
ghost use Rattle.pm_history.specs.declared.entry.Entry.TheVariants.{Now};

use crate::booking::Booking;
use crate::cells::TickCells;
use crate::closer_monitors::book_monitors;
use crate::due_report::DueReport;
use crate::ending::end_all;
use crate::filling::{open_row, stored};
use crate::limits::MOST_TICKS;
use crate::open_job::OpenJob;
use crate::open_jobs::OpenJobs;
use crate::open_monitors::OpenMonitors;
use crate::open_monitors_follow::prepare;
use crate::part::PartValues;
use crate::planned::{first_needed, plan_all};
use crate::prepared::Prepared;
use pm_base::tick;
use pm_inventory::Inventory;
use pm_jobs::{Jobs, Plan, Side};
use pm_meas::Cell;
use std::alloc::{AllocError, Global};

/// The cells that open granularity periods need, and what is open of each job and of each monitor, in the order of those
/// that stand.
#[derive(Drop)]
pub struct Closer {
    cells: TickCells,
    jobs: OpenJobs,
    monitors: OpenMonitors,
    // Whether a start of the program cuts the tick of the last moment.
    cut: bool,
    ghost fit: { JobsFit cells jobs.jobs.items },
    ghost go_on: { AllGoOn cells (cells.first + cells.ticks) monitors.monitors.items },
    ghost room: { (MOST_TICKS - 1) * cells.slots ≤ vec_capacity cells.cells },
}

impl Closer {
    ghost use Rattle.pm_close.specs.DueReports.{AreAmong, ended_by};
    ghost use Rattle.pm_close.specs.MonitorPlans.{AreCrossings};
    ghost use Rattle.pm_close.specs.Closer.{count_on, IsPrepared, CloserStands, closer_tick, ArePaired, AreCurrent, BookingStands, AddsFiles, Suits, stored_cells};

    /// What is kept of nothing: no jobs and no monitors, and the room for the cells of a longest granularity period.
    pub fn new(alloc: Global, inventory: &Inventory) -> Result<Closer, AllocError>
        ensures stands { IfOk result (CloserStands inventory.now (record { jobs = []; monitors = [] }) Start) }
        ensures slots { IfOk result (λ closer. closer.cells.slots ≡ length (slots inventory.now)) }
    {
        let mut cells = TickCells::new(alloc, u32::from(inventory.slots()));
        cells.reserve(MOST_TICKS - 1)?;
        let jobs = OpenJobs::new(alloc)?;
        Ok(Closer {
            cells,
            jobs,
            monitors: OpenMonitors::new(alloc),
            cut: false,
        })
    }

    /// The tick of the last moment.
    pub fn tick(&self) -> u64
        ensures { result ≡ closer_tick self.now }
    {
        self.cells.end()
    }

    /// How many slots a row of cells has.
    pub fn slots(&self) -> usize
        ensures { result ≡ self.now.cells.slots }
    {
        self.cells.slots()
    }

    /// How many jobs, or monitors, it has something open of.
    pub fn count(&self, side: Side) -> usize
        ensures { result ≡ count_on side self.now }
    {
        match side {
            Side::Job => self.jobs.jobs().len(),
            Side::Monitor => self.monitors.monitors.len(),
        }
    }

    /// What a request in a later tick, or a start of the program, comes to. `cells` are those of the open tick, by slot. It
    /// takes all memory that enacting it needs.
    pub fn book(
        &self,
        alloc: Global,
        jobs: &Jobs,
        cells: &[Cell],
        moment: u64,
        boot: bool,
    ) -> Result<Booking, AllocError>
        requires paired { ArePaired jobs.now self.now }
        requires wide { length cells.now ≡ self.now.cells.slots }
        requires small { AreSmall cells.now }
        requires in_range { IsMoment moment }
        requires later { closer_tick self.now ≤ tick_of moment }
        requires after { boot ≡ false → closer_tick self.now < tick_of moment }
        ensures suits { IfOk result (Suits self.now) }
        ensures entry { IfOk result (λ booking. (booking.boot ≡ boot) × (booking.tick ≡ tick_of moment)) }
        ensures among { IfOk result (λ booking. AreAmong (length jobs.now.jobs) booking.reports.items) }
        ensures stands { (inventory : InventoryState) (h : History) → CloserStands inventory jobs.now h self.now → Stands inventory jobs.now h
            → IsHistory (h ▷ ended_by boot moment) → AreCurrent (slots inventory) h cells.now
            → IfOk result (BookingStands inventory jobs.now h moment self.now) }
        ensures files { (inventory : InventoryState) (h : History) → CloserStands inventory jobs.now h self.now → Stands inventory jobs.now h
            → IsHistory (h ▷ ended_by boot moment) → AreCurrent (slots inventory) h cells.now
            → IfOk result (λ booking. AddsFiles inventory jobs.now h (ended_by boot moment) self.now booking.reports.items) }
        ensures cells { IfOk result (λ booking. booking.cells.items ≡ stored_cells boot cells.now) }
        ensures crossings { boot ≡ false → (inventory : InventoryState) (h : History) → CloserStands inventory jobs.now h self.now
            → Stands inventory jobs.now h → IsHistory (h ▷ Now moment) → AreCurrent (slots inventory) h cells.now
            → IfOk result (λ booking. AreCrossings inventory jobs.now (h ▷ Now moment) (tick_of (last_moment h)) booking.tick booking.crossings.items) }
        ensures no_crossings { boot ≡ true → IfOk result (λ booking. booking.crossings.items ≡ []) }
    {
        let row = open_row(alloc, cells, self.cut)?;
        let mut plans = plan_all(alloc, self.jobs.jobs())?;
        let mut reports = Vec::new(alloc);
        let until = tick(moment);
        end_all(
            alloc,
            jobs,
            self.jobs.jobs(),
            &self.cells,
            &row,
            self.cut,
            boot,
            until,
            plans.as_mut_slice(),
            &mut reports,
        )?;
        let of_monitors = book_monitors(
            alloc,
            &self.monitors,
            jobs,
            &self.cells,
            &row,
            self.cut,
            boot,
            until,
        )?;
        let filled = stored(alloc, cells, boot)?;
        Ok(Booking {
            boot,
            tick: until,
            row,
            plans,
            reports,
            cells: filled,
            monitors: of_monitors.plans,
            crossings: of_monitors.crossings,
        })
    }

    /// Ends what a booking ends. It takes no memory.
    pub fn enact(&mut self, booking: Booking)
        requires { Suits self.old booking }
        ensures stands { (inventory : InventoryState) (jobs : JobsState) (h : History) (moment : ℕ) → CloserStands inventory jobs h self.old
            → IsHistory (h ▷ ended_by booking.boot moment) → BookingStands inventory jobs h moment self.old booking
            → CloserStands inventory jobs (h ▷ ended_by booking.boot moment) self.new }
        ensures tick { closer_tick self.new ≡ booking.tick }
        ensures slots { self.new.cells.slots ≡ self.old.cells.slots }
        ensures paired { (jobs : JobsState) → ArePaired jobs self.old → ArePaired jobs self.new }
    {
        let until = booking.tick;
        self.jobs.enact(booking.plans);
        self.monitors.enact(booking.monitors);
        let of_jobs = first_needed(self.jobs.jobs(), until);
        let of_monitors = self.monitors.first_needed(until);
        let from = of_jobs.min(of_monitors);
        self.cells.end_with(booking.boot, &booking.row, from, until);
        self.cut = booking.boot;
    }

    /// Takes the memory that following a plan needs.
    pub fn prepare(
        &self,
        alloc: Global,
        inventory: &Inventory,
        plan: &Plan,
    ) -> Result<Prepared, AllocError>
        requires wide { self.now.cells.slots ≡ length (slots inventory.now) }
        requires over { IsOver inventory.now plan.now }
        ensures { IfOk result (IsPrepared inventory.now self.now plan.now) }
    {
        let job = OpenJobs::plan(alloc, inventory, plan, self.tick())?;
        let monitor = prepare(alloc, inventory, &self.cells, plan)?;
        Ok(Prepared { job, monitor })
    }

    /// Follows a change of the jobs and monitors, before they make it themselves. It takes no memory.
    pub fn follow(&mut self, inventory: &Inventory, jobs: &Jobs, plan: &Plan, made: Prepared)
        requires wide { self.old.cells.slots ≡ length (slots inventory.now) }
        requires paired { ArePaired jobs.now self.old }
        requires suits { SuitsJobs jobs.now plan.now }
        requires prepared { IsPrepared inventory.now self.old plan.now made }
        ensures stands { (h : History) → CloserStands inventory.now jobs.now h self.old → Stands inventory.now jobs.now h
            → IsOver inventory.now plan.now → IsHistory (grown h (entries_of jobs.now plan.now))
            → CloserStands inventory.now (jobs_after jobs.now plan.now) (grown h (entries_of jobs.now plan.now)) self.new }
        ensures paired { ArePaired (jobs_after jobs.now plan.now) self.new }
        ensures tick { closer_tick self.new ≡ closer_tick self.old }
        ensures slots { self.new.cells.slots ≡ self.old.cells.slots }
    {
        self.jobs.follow(plan, made.job);
        self.monitors.follow(plan, made.monitor);
    }

    /// The parts of a report that is due which are kept of its job.
    pub fn earlier(&self, report: &DueReport) -> &[PartValues]
        requires { report.now.job < length self.now.jobs.jobs.items }
        ensures { (job : OpenJob) → result.now ≡ earlier_parts (slice_index_or self.now.jobs.jobs.items report.now.job job) report.now.earlier }
    {
        self.jobs.jobs()[report.job as usize].earlier(report.earlier)
    }
}
