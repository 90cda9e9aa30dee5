//! What ticks that end make of a monitor, before it is kept.

ghost use Rattle.std.specs.Prelude.{◌≡◌, ◌≤◌, ◌<◌, ◌+◌, ◌^◌, ℕ, List, [], length, OnOk, IfOk};
ghost use Rattle.std.specs.List.{flat_map};
ghost use Rattle.pm_inventory.specs.Inventory.{SlotKey};
ghost use Rattle.pm_history.specs.declared.entry.Side.{Side};
ghost use Rattle.pm_history.specs.History.{History};
ghost use Rattle.pm_history.specs.Terms.{Terms, Watched};
ghost use Rattle.pm_history.specs.Standing.{Making};
ghost use Rattle.pm_history.specs.Counted.{is_counted};
ghost use Rattle.pm_history.specs.Notices.{crossings_by};
ghost use Rattle.pm_close.specs.MonitorPlans.{SameMetric, SameWatches};
ghost use Rattle.pm_close.specs.declared.limits.TheConstants.{MOST_TICKS};

use crate::cells::TickCells;
use crate::crossing::Crossing;
use crate::limits::MOST_TICKS;
use crate::marks::Marks;
use crate::open_monitors::KeptMonitor;
use crate::watches::{MetricWatches, Watches};
use pm_meas::Cell;
use std::alloc::{AllocError, Global};

/// The marks of a monitor behind ticks that ended, and its watches where a granularity period ended with them: else they
/// are as they were.
#[derive(Drop)]
pub struct MonitorPlan {
    pub(crate) marks: Marks,
    pub(crate) watches: Option<Watches>,
}

fn copy_metric(alloc: Global, metric: &MetricWatches) -> Result<MetricWatches, AllocError>
    ensures { IfOk result (SameMetric metric.now) }
{
    Ok(MetricWatches {
        of: metric.of,
        objects: Vec::from_slice(alloc, &metric.objects)?,
    })
}

fn copy_watches(alloc: Global, watches: &Watches) -> Result<Watches, AllocError>
    ensures { IfOk result (λ w. SameWatches watches.now.metrics.items w.metrics.items) }
{
    let mut metrics = Vec::new(alloc);
    for k in 0..watches.metrics.len() {
        metrics.push(copy_metric(alloc, &watches.metrics[k])?)?;
    }
    Ok(Watches { metrics })
}

impl MonitorPlan {
    ghost use Rattle.pm_close.specs.Rows.{AreSmall};
    ghost use Rattle.pm_close.specs.Marks.{NoneCounted};
    ghost use Rattle.pm_close.specs.Values.{IsCovered, KnowsCells};
    ghost use Rattle.pm_close.specs.Watched.{AllWithin, MonitorStands, all_crossed};
    ghost use Rattle.pm_close.specs.MonitorPlans.{enacted, watches_of_plan};

    /// Nothing has changed yet.
    pub(crate) fn new(monitor: &KeptMonitor) -> MonitorPlan
        ensures { enacted monitor.now result ≡ monitor.now }
    {
        MonitorPlan {
            marks: monitor.open.marks,
            watches: None,
        }
    }

    // The watches, to be stepped.
    fn take_watches(&mut self, alloc: Global, monitor: &KeptMonitor) -> Result<Watches, AllocError>
        ensures watches { IfOk result (λ w. SameWatches (watches_of_plan monitor.now.open.watches self.old.watches).metrics.items w.metrics.items) }
        ensures marks { self.new.marks ≡ self.old.marks }
    {
        match self.watches.take() {
            Some(watches) => Ok(watches),
            None => copy_watches(alloc, &monitor.open.watches),
        }
    }

    /// One more tick is over, and counted or not: the crossings that come with it. Watches are copied only where a
    /// granularity period ends. Spent after an `Err`.
    pub(crate) fn end_tick(
        &mut self,
        alloc: Global,
        monitor: &KeptMonitor,
        kept: &TickCells,
        row: &[Cell],
        mark: bool,
    ) -> Result<Vec<Crossing>, AllocError>
        requires few { monitor.now.granularity ≤ MOST_TICKS }
        requires marks { self.old.marks.count < monitor.now.granularity }
        requires in_range { self.old.marks.begin + self.old.marks.count + 1 < 2 ^ 63 }
        requires within { AllWithin kept.now.slots (enacted monitor.now self.old).open.watches.metrics.items }
        requires wide { length row.now ≡ kept.now.slots }
        requires small { AreSmall row.now }
        requires covered { IsCovered kept.now self.old.marks }
        requires ahead { kept.now.first ≤ self.old.marks.begin + self.old.marks.count }
        ensures stands { (terms : Side → List ℕ → Terms) (slots : List SlotKey) (h : History) (w : Making) (watched : List Watched) (armed tick : ℕ)
            → KnowsCells slots h kept.now row.now → mark ≡ is_counted terms h w tick
            → MonitorStands terms slots h w monitor.now.granularity watched armed tick (enacted monitor.now self.old).open
            → OnOk result (MonitorStands terms slots h w monitor.now.granularity watched armed (tick + 1) (enacted monitor.now self.new).open) }
        ensures crossings { (terms : Side → List ℕ → Terms) (slots : List SlotKey) (h : History) (w : Making) (watched : List Watched) (armed tick : ℕ)
            → KnowsCells slots h kept.now row.now → mark ≡ is_counted terms h w tick
            → MonitorStands terms slots h w monitor.now.granularity watched armed tick (enacted monitor.now self.old).open
            → IfOk result (λ crossings. all_crossed w.id (tick + 1) crossings.items
            ≡ flat_map (crossings_by terms h w monitor.now.granularity armed (tick + 1)) watched) }
        ensures within { OnOk result (AllWithin kept.now.slots (enacted monitor.now self.new).open.watches.metrics.items) }
        ensures covered { OnOk result (IsCovered kept.now self.new.marks) }
        ensures marks { OnOk result (self.new.marks.count < monitor.now.granularity) }
        ensures on { OnOk result (self.new.marks.begin + self.new.marks.count ≡ self.old.marks.begin + self.old.marks.count + 1) }
    {
        let Some(period) = self.marks.end_tick(monitor.granularity, mark) else {
            return Ok(Vec::new(alloc));
        };
        let mut watches = self.take_watches(alloc, monitor)?;
        let crossings = watches.end_period(alloc, kept, row, &period)?;
        self.watches = Some(watches);
        Ok(crossings)
    }
}
