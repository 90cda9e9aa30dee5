//! The open reporting period of a job.

ghost use Rattle.std.specs.Prelude.{◌≡◌, ◌≤◌, ◌<◌, ◌+◌, ◌-◌, ◌*◌, ◌%◌, ◌^◌, false, ◌++◌, ◌∷◌, ◌||◌, ℕ, List, [], IfOk, OnOk, length, take, vec_capacity};
ghost use Rattle.pm_inventory.specs.Inventory.{SlotKey};
ghost use Rattle.pm_history.specs.declared.entry.Side.{Side};
ghost use Rattle.pm_history.specs.History.{History};
ghost use Rattle.pm_history.specs.Terms.{Terms};
ghost use Rattle.pm_history.specs.Standing.{Making};
ghost use Rattle.pm_history.specs.Counted.{is_counted};
ghost use Rattle.pm_close.specs.declared.limits.TheConstants.{MOST_TICKS};

use crate::cells::TickCells;
use crate::limits::MOST_TICKS;
use crate::marks::Marks;
use crate::measure::Measure;
use crate::nulls::null_parts;
use crate::part::PartValues;
use pm_meas::Cell;
use std::alloc::{AllocError, Global};
use std::mem::replace;

/// What is kept of a job in its open reporting period, which begins with the tick `begin`.
#[derive(Drop)]
pub struct OpenReport {
    begin: u64,
    // The parts that were finished before, and are kept elsewhere.
    earlier: u64,
    parts: Vec<PartValues>,
    // Whether some tick of a finished part is counted.
    counted: bool,
    marks: Marks,
    ghost few: { earlier < 2 ^ 63 },
}

/// A report that ended: its parts after the earlier ones, and whether there is a file of it.
#[derive(Drop)]
pub struct Due {
    pub begin: u64,
    pub parts: Vec<PartValues>,
    pub counted: bool,
}

impl OpenReport {
    ghost use Rattle.pm_close.specs.Rows.{AreSmall};
    ghost use Rattle.pm_close.specs.Marks.{mark_at, NoneCounted};
    ghost use Rattle.pm_close.specs.Values.{IsCovered, KnowsCells};
    ghost use Rattle.pm_close.specs.Parts.{AreWithin, ReadEach, quantities_of};
    ghost use Rattle.pm_close.specs.Reports.{ReportStands, ReportReaches, EndsTick, EndsTicks};

    /// The open report of a job that was just made, or of any after a gap: no tick of its reporting period is counted. A
    /// part has so many values.
    pub fn unmarked(
        alloc: Global,
        values: usize,
        granularity: u64,
        parts: u64,
        tick: u64,
    ) -> Result<OpenReport, AllocError>
        requires some_ticks { 0 < granularity }
        requires few { granularity ≤ MOST_TICKS }
        requires some_parts { 0 < parts }
        requires few_parts { parts < 2 ^ 32 }
        requires in_range { tick < 2 ^ 63 }
        ensures stands { (terms : Side → List ℕ → Terms) (h : History) (w : Making) (t : Terms)
            → t.granularity ≡ granularity → t.parts ≡ parts → length (quantities_of t.measured) ≡ values
            → IfOk result (λ report. ((u : ℕ) → report.begin ≤ u → u < tick → is_counted terms h w u ≡ false) → ReportStands terms h w t tick [] report) }
        ensures begin { IfOk result (λ report. report.begin ≡ tick - tick % (parts * granularity)) }
        ensures reach { IfOk result (λ report. report.marks.begin + report.marks.count ≡ tick) }
        ensures within { IfOk result (λ report. report.marks.count < granularity) }
        ensures none { IfOk result (λ report. (k : ℕ) → mark_at report.marks k ≡ false) }
        ensures whole { IfOk result (λ report. report.earlier ≡ 0) }
        ensures unfinished { IfOk result (λ report. report.earlier + length report.parts.items < parts) }
    {
        let within = tick % (parts * granularity);
        let finished = within / granularity;
        Ok(OpenReport {
            begin: tick - within,
            earlier: 0,
            parts: null_parts(alloc, finished as usize, values)?,
            counted: false,
            marks: Marks::unmarked(granularity, tick),
        })
    }

    /// What goes on from here, as a plan: the finished parts stay where they are, as earlier ones.
    pub fn plan(&self, alloc: Global) -> OpenReport
        ensures stands { (terms : Side → List ℕ → Terms) (h : History) (w : Making) (t : Terms) (tick : ℕ)
            → ReportStands terms h w t tick [] self.now → ReportStands terms h w t tick self.now.parts.items result }
        ensures marks { result.marks ≡ self.now.marks }
        ensures earlier { result.earlier ≡ length self.now.parts.items }
        ensures parts { result.parts.items ≡ [] }
    {
        OpenReport {
            begin: self.begin,
            earlier: self.parts.len() as u64,
            parts: Vec::new(alloc),
            counted: self.counted,
            marks: self.marks,
        }
    }

    /// How many of its finished parts are kept elsewhere.
    pub fn earlier(&self) -> usize
        ensures { result ≡ self.now.earlier }
    {
        self.earlier as usize
    }

    /// So many of the finished parts, all where there are fewer.
    pub fn first_parts(&self, parts: usize) -> &[PartValues]
        ensures { result.now ≡ take parts self.now.parts.items }
    {
        &self.parts[..parts.min(self.parts.len())]
    }

    /// Takes the room for so many parts.
    pub fn reserve(&mut self, parts: usize) -> Result<(), AllocError>
        ensures room { OnOk result (parts ≤ vec_capacity self.new.parts) }
        ensures parts { self.new.parts.items ≡ self.old.parts.items }
        ensures begin { self.new.begin ≡ self.old.begin }
        ensures earlier { self.new.earlier ≡ self.old.earlier }
        ensures counted { self.new.counted ≡ self.old.counted }
        ensures marks { self.new.marks ≡ self.old.marks }
    {
        let more = parts.saturating_sub(self.parts.len());
        self.parts.reserve(more)
    }

    /// Takes what a plan came to: its parts come after the earlier ones. It takes no memory.
    pub fn enact(&mut self, plan: OpenReport)
        requires room { plan.earlier + length plan.parts.items ≤ vec_capacity self.old.parts }
        ensures stands { (terms : Side → List ℕ → Terms) (h : History) (w : Making) (t : Terms) (tick : ℕ)
            → ReportStands terms h w t tick (take plan.earlier self.old.parts.items) plan → ReportStands terms h w t tick [] self.new }
        ensures parts { self.new.parts.items ≡ take plan.earlier self.old.parts.items ++ plan.parts.items }
        ensures marks { self.new.marks ≡ plan.marks }
        ensures whole { self.new.earlier ≡ 0 }
        ensures room { vec_capacity self.old.parts ≤ vec_capacity self.new.parts }
    {
        let mut plan = plan;
        self.parts.truncate(plan.earlier as usize);
        append_parts(&mut self.parts, &mut plan.parts);
        self.begin = plan.begin;
        self.earlier = 0;
        self.counted = plan.counted;
        self.marks = plan.marks;
    }

    /// The marks of the open granularity period.
    pub fn marks(&self) -> &Marks
        ensures { result.now ≡ self.now.marks }
    {
        &self.marks
    }

    /// One more tick is over, and counted or not. Answers the report that ends with it, if one does. `row` are the cells of
    /// the tick that was open when what ends ticks came. Spent after an `Err`.
    pub fn end_tick(
        &mut self,
        alloc: Global,
        kept: &TickCells,
        row: &[Cell],
        measures: &[Measure],
        granularity: u64,
        parts: u64,
        mark: bool,
    ) -> Result<Option<Due>, AllocError>
        requires few { granularity ≤ MOST_TICKS }
        requires within { self.old.marks.count < granularity }
        requires in_range { self.old.marks.begin + self.old.marks.count + 1 < 2 ^ 63 }
        requires slots { AreWithin kept.now.slots measures.now }
        requires wide { length row.now ≡ kept.now.slots }
        requires small { AreSmall row.now }
        requires covered { IsCovered kept.now self.old.marks }
        requires ahead { kept.now.first ≤ self.old.marks.begin + self.old.marks.count }
        ensures stands { (terms : Side → List ℕ → Terms) (slots : List SlotKey) (h : History) (w : Making) (t : Terms) (tick : ℕ) (earlier : List PartValues)
            → KnowsCells slots h kept.now row.now → ReadEach slots measures.now (quantities_of t.measured) → t.granularity ≡ granularity → t.parts ≡ parts
            → ReportStands terms h w t tick earlier self.old → mark ≡ is_counted terms h w tick
            → IfOk result (EndsTick terms h w t (tick + 1) earlier self.new) }
        ensures covered { OnOk result (IsCovered kept.now self.new.marks) }
        ensures within { OnOk result (self.new.marks.count < granularity) }
        ensures on { OnOk result (self.new.marks.begin + self.new.marks.count ≡ self.old.marks.begin + self.old.marks.count + 1) }
        ensures unfinished { 0 < parts → OnOk result (self.new.earlier + length self.new.parts.items < parts) }
    {
        self.end_part(alloc, kept, row, measures, granularity, mark)?;
        Ok(self.take_due(alloc, parts))
    }

    /// A start of the program ends ticks up to this one, and counts none of them. Answers the report that was open, if it ends
    /// with one of them: what is kept then goes on at the last of them. Spent after an `Err`.
    pub fn end_with_boot(
        &mut self,
        alloc: Global,
        kept: &TickCells,
        row: &[Cell],
        measures: &[Measure],
        granularity: u64,
        parts: u64,
        tick: u64,
    ) -> Result<Option<Due>, AllocError>
        requires few { granularity ≤ MOST_TICKS }
        requires some_parts { 0 < parts }
        requires few_parts { parts < 2 ^ 32 }
        requires within { self.old.marks.count < granularity }
        requires reach { self.old.marks.begin + self.old.marks.count ≤ tick }
        requires in_range { tick < 2 ^ 63 }
        requires slots { AreWithin kept.now.slots measures.now }
        requires wide { length row.now ≡ kept.now.slots }
        requires small { AreSmall row.now }
        requires covered { IsCovered kept.now self.old.marks }
        requires ahead { kept.now.first ≤ self.old.marks.begin + self.old.marks.count }
        ensures stands { (terms : Side → List ℕ → Terms) (slots : List SlotKey) (h : History) (w : Making) (t : Terms) (from : ℕ) (earlier : List PartValues)
            → KnowsCells slots h kept.now row.now → ReadEach slots measures.now (quantities_of t.measured) → t.granularity ≡ granularity → t.parts ≡ parts
            → ReportStands terms h w t from earlier self.old → NoneCounted terms h w from tick
            → IfOk result (EndsTicks terms h w t from tick earlier self.new) }
        ensures within { OnOk result (self.new.marks.count < granularity) }
        ensures on { OnOk result (self.new.marks.begin + self.new.marks.count ≡ tick) }
        ensures covered { OnOk result (IsCovered kept.now self.new.marks) }
        ensures unfinished { self.old.earlier + length self.old.parts.items < parts → OnOk result (self.new.earlier + length self.new.parts.items < parts) }
    {
        for _t in self.marks.begin() + self.marks.count() as u64..tick {
            let due = self.end_tick(alloc, kept, row, measures, granularity, parts, false)?;
            if let Some(due) = due {
                *self = OpenReport::unmarked(alloc, measures.len(), granularity, parts, tick)?;
                return Ok(Some(due));
            }
        }
        Ok(None)
    }

    // A granularity period ended.
    fn add(&mut self, part: PartValues, is_some_counted: bool) -> Result<(), AllocError>
        ensures begin { OnOk result (self.new.begin ≡ self.old.begin) }
        ensures earlier { OnOk result (self.new.earlier ≡ self.old.earlier) }
        ensures marks { OnOk result (self.new.marks ≡ self.old.marks) }
        ensures parts { OnOk result (self.new.parts.items ≡ self.old.parts.items ++ part ∷ []) }
        ensures counted { OnOk result (self.new.counted ≡ (self.old.counted || is_some_counted)) }
    {
        self.parts.push(part)?;
        self.counted = self.counted || is_some_counted;
        Ok(())
    }

    // One more tick is over, and with it maybe a granularity period.
    fn end_part(
        &mut self,
        alloc: Global,
        kept: &TickCells,
        row: &[Cell],
        measures: &[Measure],
        granularity: u64,
        mark: bool,
    ) -> Result<(), AllocError>
        requires few { granularity ≤ MOST_TICKS }
        requires within { self.old.marks.count < granularity }
        requires in_range { self.old.marks.begin + self.old.marks.count + 1 < 2 ^ 63 }
        requires slots { AreWithin kept.now.slots measures.now }
        requires wide { length row.now ≡ kept.now.slots }
        requires small { AreSmall row.now }
        requires covered { IsCovered kept.now self.old.marks }
        requires ahead { kept.now.first ≤ self.old.marks.begin + self.old.marks.count }
        ensures reaches { (terms : Side → List ℕ → Terms) (slots : List SlotKey) (h : History) (w : Making) (t : Terms) (tick : ℕ) (earlier : List PartValues)
            → KnowsCells slots h kept.now row.now → ReadEach slots measures.now (quantities_of t.measured) → t.granularity ≡ granularity
            → ReportStands terms h w t tick earlier self.old → mark ≡ is_counted terms h w tick
            → OnOk result (ReportReaches terms h w t (tick + 1) earlier self.new) }
        ensures covered { OnOk result (IsCovered kept.now self.new.marks) }
        ensures within { OnOk result (self.new.marks.count < granularity) }
        ensures on { OnOk result (self.new.marks.begin + self.new.marks.count ≡ self.old.marks.begin + self.old.marks.count + 1) }
        ensures begin { OnOk result (self.new.begin ≡ self.old.begin) }
    {
        if let Some(period) = self.marks.end_tick(granularity, mark) {
            let part = PartValues::of(alloc, kept, row, measures, &period)?;
            self.add(part, period.is_some_counted())?;
        }
        Ok(())
    }

    // The report, if its last part ended; then the next one begins.
    fn take_due(&mut self, alloc: Global, parts: u64) -> Option<Due>
        ensures due { (terms : Side → List ℕ → Terms) (h : History) (w : Making) (t : Terms) (tick : ℕ) (earlier : List PartValues)
            → t.parts ≡ parts → ReportReaches terms h w t tick earlier self.old
            → EndsTick terms h w t tick earlier self.new result }
        ensures marks { self.new.marks ≡ self.old.marks }
        ensures unfinished { 0 < parts → self.new.earlier + length self.new.parts.items < parts }
    {
        if self.earlier + (self.parts.len() as u64) < parts {
            return None;
        }
        let due = Due {
            begin: self.begin,
            parts: replace(&mut self.parts, Vec::new(alloc)),
            counted: self.counted,
        };
        self.begin = self.marks.begin();
        self.earlier = 0;
        self.counted = false;
        Some(due)
    }
}

// Moves parts to the end of those for which there is room.
fn append_parts(parts: &mut Vec<PartValues>, more: &mut Vec<PartValues>)
    requires { length parts.old.items + length more.old.items ≤ vec_capacity parts.old }
    ensures appended { parts.new.items ≡ parts.old.items ++ more.old.items }
    ensures room { vec_capacity parts.old ≤ vec_capacity parts.new }
{
    match parts.append(more) {
        Ok(()) => {}
        Err(_) => unreachable!(),
    }
}
