//! The watches of a monitor, by threshold, metric and object.

ghost use Rattle.std.specs.Prelude.{◌≡◌, ◌≤◌, ◌<◌, ◌+◌, ◌++◌, ℕ, List, length, map, OnOk, IfOk};
ghost use Rattle.std.specs.List.{flat_map};
ghost use Rattle.pm_base.specs.Moment.{tick_of};
ghost use Rattle.pm_inventory.specs.Inventory.{SlotKey};
ghost use Rattle.pm_history.specs.declared.entry.Side.{Side};
ghost use Rattle.pm_history.specs.History.{History};
ghost use Rattle.pm_history.specs.Terms.{Terms, Watched};
ghost use Rattle.pm_history.specs.Standing.{Making};
ghost use Rattle.pm_history.specs.Value.{is_suspect};
ghost use Rattle.pm_history.specs.Notices.{crossings_by};
ghost use Rattle.pm_close.specs.Rows.{AreSmall};
ghost use Rattle.pm_close.specs.Values.{IsCovered};
ghost use Rattle.pm_close.specs.Watched.{PeriodEnds, ObjectsStand, WatchesStand, SlotsWithin, AllWithin, watched_by, all_crossed};

use crate::cells::TickCells;
use crate::crossing::Crossing;
use crate::ended::end_objects;
use crate::marks::Marks;
use crate::rearmed::rearm_objects;
use crate::watched::{WatchedMetric, WatchedObject};
use pm_meas::Cell;
use std::alloc::{AllocError, Global};

/// One metric of one threshold, with what is kept on each of its objects, in tree order.
#[derive(Drop)]
pub struct MetricWatches {
    pub of: WatchedMetric,
    pub objects: Vec<WatchedObject>,
}

impl MetricWatches {
    // A granularity period ends. Its crossings come after the earlier ones.
    fn end_period(
        &mut self,
        kept: &TickCells,
        row: &[Cell],
        period: &Marks,
        suspect: bool,
        crossings: &mut Vec<Crossing>,
    ) -> Result<(), AllocError>
        requires within { SlotsWithin kept.now.slots self.old.objects.items }
        requires wide { length row.now ≡ kept.now.slots }
        requires small { AreSmall row.now }
        requires covered { IsCovered kept.now period.now }
        ensures stands { (terms : Side → List ℕ → Terms) (slots : List SlotKey) (h : History) (w : Making) (granularity armed tick : ℕ)
            → PeriodEnds terms slots h w granularity armed tick kept.now row.now period.now
            → suspect ≡ is_suspect terms h w period.now.begin granularity
            → ObjectsStand terms slots h w granularity (watched_by self.old) armed tick self.old.objects.items
            → OnOk result (ObjectsStand terms slots h w granularity (watched_by self.old) armed (tick + 1) self.new.objects.items) }
        ensures crossings { (terms : Side → List ℕ → Terms) (slots : List SlotKey) (h : History) (w : Making) (granularity armed tick : ℕ)
            → PeriodEnds terms slots h w granularity armed tick kept.now row.now period.now
            → suspect ≡ is_suspect terms h w period.now.begin granularity
            → ObjectsStand terms slots h w granularity (watched_by self.old) armed tick self.old.objects.items
            → OnOk result (all_crossed w.id (tick + 1) crossings.new.items ≡ all_crossed w.id (tick + 1) crossings.old.items
            ++ crossings_by terms h w granularity armed (tick + 1) (watched_by self.old)) }
        ensures watched { OnOk result (watched_by self.new ≡ watched_by self.old) }
        ensures within { OnOk result (SlotsWithin kept.now.slots self.new.objects.items) }
    {
        let objects = self.objects.as_mut_slice();
        end_objects(&self.of, objects, kept, row, period, suspect, crossings)?;
        Ok(())
    }

    // On each object a value sequence begins.
    fn rearm(&mut self)
        ensures stands { (terms : Side → List ℕ → Terms) (slots : List SlotKey) (h g : History) (w : Making) (granularity before armed tick : ℕ)
            → ObjectsStand terms slots h w granularity (watched_by self.old) before tick self.old.objects.items
            → ObjectsStand terms slots g w granularity (watched_by self.old) armed (tick_of armed) self.new.objects.items }
        ensures watched { watched_by self.new ≡ watched_by self.old }
        ensures within { (slots : ℕ) → SlotsWithin slots self.old.objects.items → SlotsWithin slots self.new.objects.items }
    {
        rearm_objects(self.objects.as_mut_slice());
    }
}

/// The watches of a monitor.
#[derive(Drop)]
pub struct Watches {
    pub metrics: Vec<MetricWatches>,
}

// A granularity period ends on all metrics of all thresholds.
fn end_metrics(
    metrics: &mut [MetricWatches],
    kept: &TickCells,
    row: &[Cell],
    period: &Marks,
    suspect: bool,
    crossings: &mut Vec<Crossing>,
) -> Result<(), AllocError>
    requires within { AllWithin kept.now.slots metrics.old }
    requires wide { length row.now ≡ kept.now.slots }
    requires small { AreSmall row.now }
    requires covered { IsCovered kept.now period.now }
    ensures stands { (terms : Side → List ℕ → Terms) (slots : List SlotKey) (h : History) (w : Making) (granularity : ℕ) (watched : List Watched) (armed tick : ℕ)
        → PeriodEnds terms slots h w granularity armed tick kept.now row.now period.now
        → suspect ≡ is_suspect terms h w period.now.begin granularity
        → WatchesStand terms slots h w granularity watched armed tick metrics.old
        → OnOk result (WatchesStand terms slots h w granularity watched armed (tick + 1) metrics.new) }
    ensures crossings { (terms : Side → List ℕ → Terms) (slots : List SlotKey) (h : History) (w : Making) (granularity : ℕ) (watched : List Watched) (armed tick : ℕ)
        → PeriodEnds terms slots h w granularity armed tick kept.now row.now period.now
        → suspect ≡ is_suspect terms h w period.now.begin granularity
        → WatchesStand terms slots h w granularity watched armed tick metrics.old
        → OnOk result (all_crossed w.id (tick + 1) crossings.new.items ≡ all_crossed w.id (tick + 1) crossings.old.items
        ++ flat_map (crossings_by terms h w granularity armed (tick + 1)) watched) }
    ensures within { OnOk result (AllWithin kept.now.slots metrics.new) }
{
    for k in 0..metrics.len() {
        metrics[k].end_period(kept, row, period, suspect, crossings)?;
    }
    Ok(())
}

// Value sequences begin on all objects of all metrics of all thresholds.
fn rearm_metrics(metrics: &mut [MetricWatches])
    ensures stands { (terms : Side → List ℕ → Terms) (slots : List SlotKey) (h g : History) (w : Making) (granularity : ℕ) (watched : List Watched) (before armed tick : ℕ)
        → WatchesStand terms slots h w granularity watched before tick metrics.old
        → WatchesStand terms slots g w granularity watched armed (tick_of armed) metrics.new }
    ensures within { (slots : ℕ) → AllWithin slots metrics.old → AllWithin slots metrics.new }
{
    for k in 0..metrics.len() {
        metrics[k].rearm();
    }
}

impl Watches {
    /// Begins empty value sequences, after the monitor is set to UNLOCKED. It takes no memory.
    pub fn rearm(&mut self)
        ensures stands { (terms : Side → List ℕ → Terms) (slots : List SlotKey) (h g : History) (w : Making) (granularity : ℕ) (watched : List Watched) (before armed tick : ℕ)
            → WatchesStand terms slots h w granularity watched before tick self.old.metrics.items
            → WatchesStand terms slots g w granularity watched armed (tick_of armed) self.new.metrics.items }
        ensures within { (slots : ℕ) → AllWithin slots self.old.metrics.items → AllWithin slots self.new.metrics.items }
    {
        rearm_metrics(self.metrics.as_mut_slice());
    }

    /// A granularity period ends. Its crossings come by threshold, by metric in catalogue order, by object in tree order.
    /// `row` are the cells of the tick that was open when what ends ticks came. Spent after an `Err`.
    pub fn end_period(
        &mut self,
        alloc: Global,
        kept: &TickCells,
        row: &[Cell],
        period: &Marks,
    ) -> Result<Vec<Crossing>, AllocError>
        requires within { AllWithin kept.now.slots self.old.metrics.items }
        requires wide { length row.now ≡ kept.now.slots }
        requires small { AreSmall row.now }
        requires covered { IsCovered kept.now period.now }
        ensures stands { (terms : Side → List ℕ → Terms) (slots : List SlotKey) (h : History) (w : Making) (granularity : ℕ) (watched : List Watched) (armed tick : ℕ)
            → PeriodEnds terms slots h w granularity armed tick kept.now row.now period.now
            → WatchesStand terms slots h w granularity watched armed tick self.old.metrics.items
            → OnOk result (WatchesStand terms slots h w granularity watched armed (tick + 1) self.new.metrics.items) }
        ensures crossings { (terms : Side → List ℕ → Terms) (slots : List SlotKey) (h : History) (w : Making) (granularity : ℕ) (watched : List Watched) (armed tick : ℕ)
            → PeriodEnds terms slots h w granularity armed tick kept.now row.now period.now
            → WatchesStand terms slots h w granularity watched armed tick self.old.metrics.items
            → IfOk result (λ crossings. all_crossed w.id (tick + 1) crossings.items
            ≡ flat_map (crossings_by terms h w granularity armed (tick + 1)) watched) }
        ensures within { OnOk result (AllWithin kept.now.slots self.new.metrics.items) }
    {
        let suspect = period.is_suspect();
        let mut crossings = Vec::new(alloc);
        let metrics = self.metrics.as_mut_slice();
        end_metrics(metrics, kept, row, period, suspect, &mut crossings)?;
        Ok(crossings)
    }
}
