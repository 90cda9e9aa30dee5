//! What is kept of a job.

ghost use Rattle.std.specs.Prelude.{◌≡◌, ◌≤◌, ◌<◌, ◌+◌, ◌^◌, ◌++◌, ℕ, List, [], length, IfOk, OnOk, IfSome, vec_capacity};
ghost use Rattle.pm_base.specs.Moment.{tick_of};
ghost use Rattle.pm_inventory.specs.Inventory.{InventoryState, slots};
ghost use Rattle.pm_history.specs.declared.entry.Side.TheVariants.{Job};
ghost use Rattle.pm_history.specs.declared.entry.Entry.TheVariants.{Boot, Now};
ghost use Rattle.pm_history.specs.History.{History, ◌▷◌, last_moment};
ghost use Rattle.pm_history.specs.Standing.{Making};
ghost use Rattle.pm_history.specs.Files.{file_at};
ghost use Rattle.pm_asked.specs.Asked.{terms_of};
ghost use Rattle.pm_jobs.specs.Stands.{Keeps, StandsFor};
ghost use Rattle.pm_close.specs.declared.limits.TheConstants.{MOST_TICKS};

use crate::cells::TickCells;
use crate::due_report::DueReport;
use crate::limits::MOST_TICKS;
use crate::marks::counts;
use crate::measure::Measure;
use crate::measures::measures_of;
use crate::part::PartValues;
use crate::report::{Due, OpenReport};
use pm_inventory::Inventory;
use pm_jobs::Standing;
use pm_meas::Cell;
use std::alloc::{AllocError, Global};

/// The open report of a job, what the job measures, and its periods.
#[derive(Drop)]
pub struct OpenJob {
    report: OpenReport,
    measures: Vec<Measure>,
    // How many ticks a granularity period has, and how many granularity periods a reporting period.
    granularity: u64,
    parts: u64,
    ghost few: { granularity ≤ MOST_TICKS },
    ghost few_parts: { parts < 2 ^ 32 },
    ghost within: { report.marks.count < granularity },
    ghost whole: { report.earlier ≡ 0 },
    ghost unfinished: { length report.parts.items < parts },
    ghost room: { parts ≤ vec_capacity report.parts },
}

impl OpenJob {
    ghost use Rattle.pm_close.specs.Rows.{AreSmall};
    ghost use Rattle.pm_close.specs.Marks.{NoneCounted};
    ghost use Rattle.pm_close.specs.Parts.{AreWithin};
    ghost use Rattle.pm_close.specs.Reports.{ReportStands};
    ghost use Rattle.pm_close.specs.OpenJobs.{IsAsked, StandsAt, PlanFits, JobFits, earlier_parts};
    ghost use Rattle.pm_close.specs.DueReports.{files_by, files_by_at, NowEnds, BootEnds};

    /// What is kept of a job that is made in a tick.
    pub fn made(
        alloc: Global,
        inventory: &Inventory,
        standing: &Standing,
        tick: u64,
    ) -> Result<OpenJob, AllocError>
        requires in_range { tick < 2 ^ 63 }
        ensures asked { Keeps inventory.now Job standing.now → IfOk result (IsAsked inventory.now standing.now) }
        ensures stands { Keeps inventory.now Job standing.now → IfOk result (λ job. (h : History) (w : Making)
            → NoneCounted (terms_of inventory.now) h w 0 tick
            → ReportStands (terms_of inventory.now) h w (terms_of inventory.now Job standing.now.body) tick [] job.report) }
        ensures fits { IfOk result (λ job. (kept : TickCells) → kept.slots ≡ length (slots inventory.now) → kept.first + kept.ticks ≡ tick → JobFits kept job) }
    {
        let granularity = u64::from(standing.granularity) / 60;
        // No job stands that has other periods.
        if granularity == 0 || granularity > MOST_TICKS {
            return Err(AllocError);
        }
        let parts = u64::from(standing.reporting) / granularity;
        if parts == 0 {
            return Err(AllocError);
        }
        let measures = measures_of(alloc, inventory, standing)?;
        let mut report = OpenReport::unmarked(alloc, measures.len(), granularity, parts, tick)?;
        report.reserve(parts as usize)?;
        Ok(OpenJob {
            report,
            measures,
            granularity,
            parts,
        })
    }

    /// A plan that goes on from what is kept.
    pub fn plan(&self, alloc: Global) -> OpenReport
        ensures stands { (inventory : InventoryState) (h : History) (s : Standing) (tick : ℕ)
            → StandsAt inventory h s tick [] self.now.report → StandsAt inventory h s tick (earlier_parts self.now result.earlier) result }
        ensures fits { (kept : TickCells) (tick : ℕ) → PlanFits kept tick self.now self.now.report → PlanFits kept tick self.now result }
    {
        self.report.plan(alloc)
    }

    /// So many of the finished parts of the open report, all where there are fewer.
    pub fn earlier(&self, parts: usize) -> &[PartValues]
        ensures { result.now ≡ earlier_parts self.now parts }
    {
        self.report.first_parts(parts)
    }

    /// The open report.
    pub fn report(&self) -> &OpenReport
        ensures { result.now ≡ self.now.report }
    {
        &self.report
    }

    /// A request ends one more tick. Answers the report that is due with it, of the job at this place. The plan is spent
    /// after an `Err`.
    pub fn end_tick(
        &self,
        alloc: Global,
        kept: &TickCells,
        row: &[Cell],
        standing: &Standing,
        place: u8,
        cut: bool,
        tick: u64,
        plan: &mut OpenReport,
    ) -> Result<Option<DueReport>, AllocError>
        requires fits { PlanFits kept.now tick self.now plan.old }
        requires slots { AreWithin kept.now.slots self.now.measures.items }
        requires wide { length row.now ≡ kept.now.slots }
        requires small { AreSmall row.now }
        requires ahead { kept.now.first ≤ tick }
        requires in_range { tick < 2 ^ 57 }
        ensures fits { OnOk result (PlanFits kept.now (tick + 1) self.now plan.new) }
        ensures stands { (inventory : InventoryState) (h : History) (m : ℕ) → NowEnds inventory h m kept.now row.now cut tick
            → StandsFor inventory Job h standing.now → IsAsked inventory standing.now self.now
            → StandsAt inventory (h ▷ Now m) standing.now tick (earlier_parts self.now plan.old.earlier) plan.old
            → OnOk result (StandsAt inventory (h ▷ Now m) standing.now (tick + 1) (earlier_parts self.now plan.new.earlier) plan.new) }
        ensures report { (inventory : InventoryState) (h : History) (m : ℕ) → NowEnds inventory h m kept.now row.now cut tick
            → StandsFor inventory Job h standing.now → IsAsked inventory standing.now self.now
            → StandsAt inventory (h ▷ Now m) standing.now tick (earlier_parts self.now plan.old.earlier) plan.old
            → IfOk result (λ due. file_at (terms_of inventory) (h ▷ Now m) (tick + 1) standing.now.id ≡ files_by inventory standing.now self.now due) }
        ensures place { IfOk result (λ due. IfSome due (λ report. (report.job ≡ place) × (report.end ≡ tick + 1))) }
    {
        let mark = counts(cut, standing.changed, standing.unlocked, tick);
        let earlier = plan.earlier();
        let due = plan.end_tick(
            alloc,
            kept,
            row,
            &self.measures,
            self.granularity,
            self.parts,
            mark,
        )?;
        Ok(DueReport::of(place, tick + 1, earlier, due))
    }

    /// A start of the program ends ticks up to this one. Answers the report that is due with one of them, of the job at this
    /// place. The plan is spent after an `Err`.
    pub fn end_with_boot(
        &self,
        alloc: Global,
        kept: &TickCells,
        row: &[Cell],
        place: u8,
        tick: u64,
        plan: &mut OpenReport,
    ) -> Result<Option<DueReport>, AllocError>
        requires fits { PlanFits kept.now (kept.now.first + kept.now.ticks) self.now plan.old }
        requires slots { AreWithin kept.now.slots self.now.measures.items }
        requires wide { length row.now ≡ kept.now.slots }
        requires small { AreSmall row.now }
        requires later { kept.now.first + kept.now.ticks ≤ tick }
        requires in_range { tick < 2 ^ 57 }
        ensures fits { OnOk result (PlanFits kept.now tick self.now plan.new) }
        ensures stands { (inventory : InventoryState) (h : History) (m : ℕ) (standing : Standing) → BootEnds inventory h m kept.now row.now tick
            → StandsFor inventory Job h standing → IsAsked inventory standing self.now
            → StandsAt inventory (h ▷ Boot m) standing (tick_of (last_moment h)) (earlier_parts self.now plan.old.earlier) plan.old
            → OnOk result (StandsAt inventory (h ▷ Boot m) standing tick (earlier_parts self.now plan.new.earlier) plan.new) }
        ensures report { (inventory : InventoryState) (h : History) (m : ℕ) (standing : Standing) → BootEnds inventory h m kept.now row.now tick
            → StandsFor inventory Job h standing → IsAsked inventory standing self.now
            → StandsAt inventory (h ▷ Boot m) standing (tick_of (last_moment h)) (earlier_parts self.now plan.old.earlier) plan.old
            → IfOk result (λ due. (end : ℕ) → tick_of (last_moment h) < end → end ≤ tick
            → file_at (terms_of inventory) (h ▷ Boot m) end standing.id ≡ files_by_at inventory standing self.now end due) }
        ensures within { (inventory : InventoryState) (h : History) (m : ℕ) (standing : Standing) → BootEnds inventory h m kept.now row.now tick
            → StandsFor inventory Job h standing → IsAsked inventory standing self.now
            → StandsAt inventory (h ▷ Boot m) standing (tick_of (last_moment h)) (earlier_parts self.now plan.old.earlier) plan.old
            → IfOk result (λ due. IfSome due (λ report. (tick_of (last_moment h) < report.end) × (report.end ≤ tick))) }
        ensures place { IfOk result (λ due. IfSome due (λ report. report.job ≡ place)) }
    {
        let earlier = plan.earlier();
        let due = plan.end_with_boot(
            alloc,
            kept,
            row,
            &self.measures,
            self.granularity,
            self.parts,
            tick,
        )?;
        let end = end_of(&due, self.parts * self.granularity);
        Ok(DueReport::of(place, end, earlier, due))
    }

    /// Takes what a plan came to. It takes no memory.
    pub fn enact(&mut self, plan: OpenReport)
        requires within { plan.marks.count < self.old.granularity }
        requires unfinished { plan.earlier + length plan.parts.items < self.old.parts }
        ensures stands { (inventory : InventoryState) (h : History) (s : Standing) (tick : ℕ)
            → StandsAt inventory h s tick (earlier_parts self.old plan.earlier) plan → StandsAt inventory h s tick [] self.new.report }
        ensures asked { (inventory : InventoryState) (s : Standing) → IsAsked inventory s self.old → IsAsked inventory s self.new }
        ensures fits { (kept : TickCells) (tick : ℕ) → PlanFits kept tick self.old plan → PlanFits kept tick self.new self.new.report }
        ensures measures { self.new.measures ≡ self.old.measures }
    {
        self.report.enact(plan);
    }
}

// The end of a report that ended, whose reporting period has so many ticks.
fn end_of(due: &Option<Due>, ticks: u64) -> u64
    ensures { IfSome due.now (λ due. due.begin + ticks < 2 ^ 64 → result ≡ due.begin + ticks) }
{
    match due {
        Some(due) => due.begin.saturating_add(ticks),
        None => 0,
    }
}
