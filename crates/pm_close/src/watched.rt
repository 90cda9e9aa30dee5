//! What a monitor watches: one metric of one threshold, on an object.

ghost use Rattle.std.specs.Prelude.{◌≡◌, ◌≤◌, ◌<◌, ◌+◌, ℕ, List, length, map, option_to_list, slice_index_or};
ghost use Rattle.pm_base.specs.Moment.{tick_of};
ghost use Rattle.pm_inventory.specs.Inventory.{SlotKey};
ghost use Rattle.pm_history.specs.declared.entry.Side.{Side};
ghost use Rattle.pm_history.specs.History.{History};
ghost use Rattle.pm_history.specs.Terms.{Terms, Watched};
ghost use Rattle.pm_history.specs.Standing.{Making};
ghost use Rattle.pm_history.specs.Value.{is_suspect};
ghost use Rattle.pm_history.specs.Notices.{crossing_at};

use crate::cells::TickCells;
use crate::crossing::Crossing;
use crate::flags::watch_period;
use crate::marks::Marks;
use crate::value::period_value;
use pm_history::Metric;
use pm_meas::Cell;
use pm_thresh::{Direction, Watch};

/// One metric of one threshold of a monitor. `value` and `hysteresis` are as given; a crossing upward is at `high`, one
/// downward at `low`, and `up` and `down` say which are kept.
#[derive(Clone, Copy, Debug)]
pub struct WatchedMetric {
    /// The place of the threshold in its monitor.
    pub threshold: u32,
    pub metric: Metric,
    pub value: u64,
    pub hysteresis: u64,
    pub high: u64,
    pub low: u64,
    pub up: bool,
    pub down: bool,
}

/// One of its objects: the slot that counts the metric there, and what is kept of the value sequence.
#[derive(Clone, Copy, Debug)]
pub struct WatchedObject {
    pub object: u16,
    pub slot: u32,
    watch: Watch,
}

impl WatchedMetric {
    ghost use Rattle.pm_close.specs.Flags.{crossing_told};
    ghost use Rattle.pm_close.specs.Watched.{watched_on, all_crossed};

    // The crossing that an answer tells.
    fn crossing(
        &self,
        object: u16,
        value: Option<u64>,
        answer: Option<Direction>,
    ) -> Option<Crossing>
        ensures { (id objects : List ℕ) (end : ℕ) → all_crossed id end (option_to_list result)
            ≡ crossing_told id (watched_on self.now objects) object end value answer }
    {
        let value = value?;
        let direction = answer?;
        Some(Crossing {
            threshold: self.threshold,
            metric: self.metric.number,
            object,
            direction,
            value,
            limit: self.value,
            hysteresis: self.hysteresis,
        })
    }
}

impl WatchedObject {
    ghost use Rattle.pm_close.specs.Rows.{AreSmall};
    ghost use Rattle.pm_close.specs.Values.{IsCovered};
    ghost use Rattle.pm_close.specs.Watched.{PeriodEnds, ObjectStands, watched_on, all_crossed};

    /// An object whose value sequence is empty.
    pub fn new(of: &WatchedMetric, object: u16, slot: u32) -> WatchedObject
        requires { of.now.low ≤ of.now.high }
        ensures stands { (terms : Side → List ℕ → Terms) (slots : List SlotKey) (h : History) (w : Making) (granularity armed : ℕ) (objects : List ℕ)
            → ((d : SlotKey) → slice_index_or slots slot d ≡ record { object = object; metric = of.now.metric.number })
            → ObjectStands terms slots h w granularity (watched_on of.now objects) armed (tick_of armed) result }
        ensures object { result.object ≡ object }
        ensures slot { result.slot ≡ slot }
    {
        WatchedObject {
            object,
            slot,
            watch: Watch::new(of.high, of.low, of.up, of.down),
        }
    }

    /// Begins an empty value sequence.
    pub fn rearm(&mut self)
        ensures stands { (terms : Side → List ℕ → Terms) (slots : List SlotKey) (h g : History) (w : Making) (granularity : ℕ) (watched : Watched) (before armed tick : ℕ)
            → ObjectStands terms slots h w granularity watched before tick self.old
            → ObjectStands terms slots g w granularity watched armed (tick_of armed) self.new }
        ensures object { self.new.object ≡ self.old.object }
        ensures slot { self.new.slot ≡ self.old.slot }
    {
        self.watch.restart();
    }

    // A granularity period ends: its value is the next of the sequence, unless it is null or suspect.
    pub(crate) fn end_period(
        &mut self,
        of: &WatchedMetric,
        kept: &TickCells,
        row: &[Cell],
        period: &Marks,
        suspect: bool,
    ) -> Option<Crossing>
        requires slot { self.old.slot < kept.now.slots }
        requires wide { length row.now ≡ kept.now.slots }
        requires small { AreSmall row.now }
        requires covered { IsCovered kept.now period.now }
        ensures stands { (terms : Side → List ℕ → Terms) (slots : List SlotKey) (h : History) (w : Making) (granularity armed tick : ℕ) (objects : List ℕ)
            → PeriodEnds terms slots h w granularity armed tick kept.now row.now period.now
            → suspect ≡ is_suspect terms h w period.now.begin granularity
            → ObjectStands terms slots h w granularity (watched_on of.now objects) armed tick self.old
            → ObjectStands terms slots h w granularity (watched_on of.now objects) armed (tick + 1) self.new }
        ensures crossing { (terms : Side → List ℕ → Terms) (slots : List SlotKey) (h : History) (w : Making) (granularity armed tick : ℕ) (objects : List ℕ)
            → PeriodEnds terms slots h w granularity armed tick kept.now row.now period.now
            → suspect ≡ is_suspect terms h w period.now.begin granularity
            → ObjectStands terms slots h w granularity (watched_on of.now objects) armed tick self.old
            → all_crossed w.id (tick + 1) (option_to_list result)
            ≡ crossing_at terms h w granularity armed (tick + 1) (watched_on of.now objects) self.old.object }
        ensures object { self.new.object ≡ self.old.object }
        ensures slot { self.new.slot ≡ self.old.slot }
    {
        let value = period_value(kept, row, self.slot as usize, period, of.metric.reduce);
        let answer = watch_period(&mut self.watch, value, suspect);
        of.crossing(self.object, value, answer)
    }
}
