//! What is kept of a monitor.

ghost use Rattle.std.specs.Prelude.{◌≡◌, ◌≤◌, ◌<◌, ◌+◌, ◌^◌, ℕ, List, [], length, OnOk, IfOk};
ghost use Rattle.pm_inventory.specs.Inventory.{SlotKey};
ghost use Rattle.pm_history.specs.declared.entry.Side.{Side};
ghost use Rattle.pm_history.specs.History.{History};
ghost use Rattle.pm_history.specs.Terms.{Terms, Watched};
ghost use Rattle.pm_history.specs.Standing.{Making};
ghost use Rattle.pm_history.specs.Counted.{is_counted};
ghost use Rattle.std.specs.List.{flat_map};
ghost use Rattle.pm_history.specs.Notices.{crossings_by};
ghost use Rattle.pm_close.specs.declared.limits.TheConstants.{MOST_TICKS};

use crate::cells::TickCells;
use crate::crossing::Crossing;
use crate::limits::MOST_TICKS;
use crate::marks::Marks;
use crate::watches::Watches;
use pm_meas::Cell;
use std::alloc::{AllocError, Global};

/// The marks of the open granularity period of a monitor, and its watches.
#[derive(Drop)]
pub struct OpenMonitor {
    pub marks: Marks,
    pub watches: Watches,
}

impl OpenMonitor {
    ghost use Rattle.pm_close.specs.Rows.{AreSmall};
    ghost use Rattle.pm_base.specs.Moment.{tick_of};
    ghost use Rattle.pm_close.specs.Marks.{NoneCounted, MarksStand};
    ghost use Rattle.pm_close.specs.Values.{IsCovered, KnowsCells};
    ghost use Rattle.pm_close.specs.Watched.{AllWithin, MonitorStands, all_crossed};

    /// One more tick is over, and counted or not. Answers the crossings that come with it, by threshold, by metric in
    /// catalogue order, by object in tree order. `row` are the cells of the tick that was open when what ends ticks came.
    /// Spent after an `Err`.
    pub fn end_tick(
        &mut self,
        alloc: Global,
        kept: &TickCells,
        row: &[Cell],
        granularity: u64,
        mark: bool,
    ) -> Result<Vec<Crossing>, AllocError>
        requires few { granularity ≤ MOST_TICKS }
        requires marks { self.old.marks.count < granularity }
        requires in_range { self.old.marks.begin + self.old.marks.count + 1 < 2 ^ 63 }
        requires within { AllWithin kept.now.slots self.old.watches.metrics.items }
        requires wide { length row.now ≡ kept.now.slots }
        requires small { AreSmall row.now }
        requires covered { IsCovered kept.now self.old.marks }
        requires ahead { kept.now.first ≤ self.old.marks.begin + self.old.marks.count }
        ensures stands { (terms : Side → List ℕ → Terms) (slots : List SlotKey) (h : History) (w : Making) (watched : List Watched) (armed tick : ℕ)
            → KnowsCells slots h kept.now row.now → mark ≡ is_counted terms h w tick
            → MonitorStands terms slots h w granularity watched armed tick self.old
            → OnOk result (MonitorStands terms slots h w granularity watched armed (tick + 1) self.new) }
        ensures crossings { (terms : Side → List ℕ → Terms) (slots : List SlotKey) (h : History) (w : Making) (watched : List Watched) (armed tick : ℕ)
            → KnowsCells slots h kept.now row.now → mark ≡ is_counted terms h w tick
            → MonitorStands terms slots h w granularity watched armed tick self.old
            → IfOk result (λ crossings. all_crossed w.id (tick + 1) crossings.items
            ≡ flat_map (crossings_by terms h w granularity armed (tick + 1)) watched) }
        ensures within { OnOk result (AllWithin kept.now.slots self.new.watches.metrics.items) }
        ensures covered { OnOk result (IsCovered kept.now self.new.marks) }
        ensures marks { OnOk result (self.new.marks.count < granularity) }
        ensures on { OnOk result (self.new.marks.begin + self.new.marks.count ≡ self.old.marks.begin + self.old.marks.count + 1) }
    {
        match self.marks.end_tick(granularity, mark) {
            Some(period) => self.watches.end_period(alloc, kept, row, &period),
            None => Ok(Vec::new(alloc)),
        }
    }

    /// A start of the program ends ticks up to this one, and counts none of them: there are no crossings, and all value
    /// sequences stay. It takes no memory, and no longer than a granularity period has ticks.
    pub fn end_with_boot(&mut self, granularity: u64, tick: u64)
        requires few { granularity ≤ MOST_TICKS }
        requires marks { self.old.marks.count < granularity }
        requires reach { self.old.marks.begin + self.old.marks.count ≤ tick }
        requires in_range { tick < 2 ^ 63 }
        ensures stands { (terms : Side → List ℕ → Terms) (slots : List SlotKey) (h : History) (w : Making) (watched : List Watched) (armed from : ℕ)
            → NoneCounted terms h w from tick
            → MonitorStands terms slots h w granularity watched armed from self.old
            → MonitorStands terms slots h w granularity watched armed tick self.new }
        ensures none { (terms : Side → List ℕ → Terms) (h : History) (w : Making) (watched : List Watched) (armed from end : ℕ)
            → NoneCounted terms h w from tick → from < end → end ≤ tick
            → flat_map (crossings_by terms h w granularity armed end) watched ≡ [] }
        ensures watches { self.new.watches ≡ self.old.watches }
        ensures on { self.new.marks.begin + self.new.marks.count ≡ tick }
        ensures marks { self.new.marks.count < granularity }
    {
        self.marks.end_uncounted(granularity, tick);
    }

    /// Begins empty value sequences, after the monitor is set to UNLOCKED: `armed` is the moment of that, in the tick up to
    /// which ticks have ended. It takes no memory.
    pub fn rearm(&mut self)
        ensures stands { (terms : Side → List ℕ → Terms) (slots : List SlotKey) (h g : History) (w : Making) (granularity : ℕ) (watched : List Watched) (before armed : ℕ)
            → MonitorStands terms slots h w granularity watched before (tick_of armed) self.old
            → MarksStand terms g w granularity (tick_of armed) self.old.marks
            → MonitorStands terms slots g w granularity watched armed (tick_of armed) self.new }
        ensures within { (slots : ℕ) → AllWithin slots self.old.watches.metrics.items → AllWithin slots self.new.watches.metrics.items }
        ensures marks { self.new.marks ≡ self.old.marks }
    {
        self.watches.rearm();
    }
}
