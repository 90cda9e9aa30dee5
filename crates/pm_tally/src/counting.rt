//! What a tally keeps of the events so far: of the last tick alone.
ghost use Rattle.std.specs.Prelude.{◌≡◌, ◌≤◌, ◌*◌, ◌+◌, ◌<◌, ◌++◌, ◌∷◌, [], ℕ, List, None, IsTrue, false, length, map, IfOk, if◌then◌else◌};
ghost use Rattle.pm_meas.specs.declared.cell.TheConstants.{MAX_VALUE};
ghost use Rattle.pm_base.specs.Moment.{tick_of};
ghost use Rattle.pm_inventory.specs.Slot.{Slot};
ghost use Rattle.pm_events.specs.Event.{order_refusal};
ghost use Rattle.pm_events.specs.declared.event.Event.{Event};
ghost use Rattle.pm_tally.specs.Counting.{AreClear, Counts, CountsEvent};

use crate::slot_count::SlotCount;
use pm_base::{Code, tick};
use pm_events::{Event, MOST_REGISTERED, SlotTable};
use std::alloc::{AllocError, Global};

/// The last moment, and of its tick how many events were registered and the count of each slot.
#[derive(Debug, Drop)]
pub struct Counting {
    pub moment: u64,
    pub registered: u32,
    pub counts: Vec<SlotCount>,
}

impl Counting {
    /// Of no event.
    pub fn new(alloc: Global, slots: &SlotTable) -> Result<Counting, AllocError>
        ensures counts { IfOk result (λ counting. Counts slots.now counting []) }
        ensures many { IfOk result (λ counting. length counting.counts.items ≡ length slots.now) }
    {
        let mut counts = Vec::new(alloc);
        for slot in 0..slots.len() {
            counts.push(SlotCount::new(u32::from(slots.registers_each(slot))))?;
        }
        Ok(Counting {
            moment: 0,
            registered: 0,
            counts,
        })
    }

    /// Why the event is refused behind those that were counted: E5 where its moment falls, E4 where its tick is full.
    pub fn refusal(&self, event: &Event) -> Option<Code>
        ensures order { (slots : List Slot) (events : List Event) → Counts slots self.now events → result ≡ order_refusal slots events event.now }
        ensures later { result ≡ None → self.now.moment ≤ event.now.moment }
        ensures room { result ≡ None → tick_of self.now.moment ≡ tick_of event.now.moment → self.now.registered < 1073741824 }
    {
        if event.moment < self.moment {
            return Some(Code::E5);
        }
        if self.is_full(event) {
            return Some(Code::E4);
        }
        None
    }

    // The tick of the event has as many events as are registered in one.
    fn is_full(&self, event: &Event) -> bool
        ensures full { IsTrue result → (1073741824 ≤ self.now.registered) × (tick_of self.now.moment ≡ tick_of event.now.moment) }
        ensures room { result ≡ false → tick_of self.now.moment ≡ tick_of event.now.moment → self.now.registered < 1073741824 }
    {
        self.registered >= MOST_REGISTERED && tick(event.moment) == tick(self.moment)
    }

    /// Counts an event of the same tick.
    pub fn add(&mut self, event: &Event)
        requires value { event.now.value ≤ MAX_VALUE }
        requires slot { event.now.slot < length self.old.counts.items }
        requires later { self.old.moment ≤ event.now.moment }
        requires same { tick_of self.old.moment ≡ tick_of event.now.moment }
        requires room { self.old.registered < 1073741824 }
        ensures many { length self.new.counts.items ≡ length self.old.counts.items }
        ensures counted { (slots : List Slot) (events : List Event) → Counts slots self.old events → Counts slots self.new (events ++ event.now ∷ []) }
    {
        self.count(event);
    }

    /// Begins a later tick, with its first event.
    pub fn begin(&mut self, event: &Event)
        requires value { event.now.value ≤ MAX_VALUE }
        requires slot { event.now.slot < length self.old.counts.items }
        requires later { tick_of self.old.moment < tick_of event.now.moment }
        ensures many { length self.new.counts.items ≡ length self.old.counts.items }
        ensures counted { (slots : List Slot) (events : List Event) → Counts slots self.old events → Counts slots self.new (events ++ event.now ∷ []) }
    {
        clear(self.counts.as_mut_slice());
        self.registered = 0;
        self.count(event);
    }

    fn count(&mut self, event: &Event)
        requires value { event.now.value ≤ MAX_VALUE }
        requires slot { event.now.slot < length self.old.counts.items }
        requires room { self.old.registered < 1073741824 }
        ensures { CountsEvent self.old event.now self.new }
    {
        let is_registered = self.counts[event.slot as usize].count(event.value);
        self.registered = one_more(self.registered, is_registered);
        self.moment = event.moment;
    }
}

fn one_more(registered: u32, is: bool) -> u32
    requires { registered < 1073741824 }
    ensures { result ≡ (if is then registered + 1 else registered) }
{
    if is { registered + 1 } else { registered }
}

// Begins the count of each slot anew.
fn clear(counts: &mut [SlotCount])
    ensures { AreClear counts.old counts.new }
{
    for count in counts.iter_mut() {
        count.clear();
    }
}
