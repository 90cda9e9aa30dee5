//! The lines of ticks, from all registered events.
ghost use Rattle.std.specs.Prelude.{◌≡◌, ◌≤◌, ◌<◌, ◌+◌, ◌*◌, ◌^◌, ◌++◌, ℕ, List, [], map, length, Some, slice_get, IfOk, OnOk};
ghost use Rattle.pm_base.specs.Moment.{tick_of};
ghost use Rattle.pm_inventory.specs.Slot.{Slot};
ghost use Rattle.pm_events.specs.Event.{events_in, events_at, registered};
ghost use Rattle.pm_events.specs.declared.event.Event.{Event};
ghost use Rattle.pm_tally.specs.Tally.{slot_line, tick_lines, lines_before};
ghost use Rattle.pm_tally.specs.Plain.{AreFew};

use crate::lines::value_text;
use pm_base::{TICK_SECONDS, tick};
use pm_events::{Event, SlotTable};
use pm_meas::plain::value_of;
use std::alloc::{AllocError, Global};

/// The lines of the ticks before this one, from the events that are registered.
pub fn text_before(
    alloc: Global,
    slots: &SlotTable,
    found: &[Event],
    end: u64,
) -> Result<Vec<u8>, AllocError>
    requires few { AreFew found.now }
    requires moment { 60 * end < 2 ^ 64 + 60 }
    ensures { (events : List Event) → found.now ≡ registered slots.now events → IfOk result (λ text. text.items ≡ lines_before slots.now events end) }
{
    let mut text = Vec::new(alloc);
    for of_tick in first_tick(found).min(end)..end {
        tick_text(alloc, slots, found, of_tick, &mut text)?;
    }
    Ok(text)
}

// The tick of the first event, and a late one where there is none.
fn first_tick(events: &[Event]) -> u64
    ensures { (k : ℕ) → k < result → events_in events.now k ≡ [] }
{
    let mut first = u64::MAX;
    for event in events {
        first = first.min(tick(event.moment));
    }
    first
}

// The lines of a tick, behind others.
fn tick_text(
    alloc: Global,
    slots: &SlotTable,
    found: &[Event],
    of_tick: u64,
    text: &mut Vec<u8>,
) -> Result<(), AllocError>
    requires few { AreFew found.now }
    requires moment { 60 * of_tick < 2 ^ 64 }
    ensures { (events : List Event) → found.now ≡ registered slots.now events → OnOk result (text.new.items ≡ text.old.items ++ tick_lines slots.now events of_tick) }
{
    for slot in 0..slots.len() {
        let values = slot_values(alloc, found, slot, of_tick)?;
        slot_text(slots, slot, of_tick, &values, text)?;
    }
    Ok(())
}

// The values of a slot in a tick.
fn slot_values(
    alloc: Global,
    events: &[Event],
    slot: u16,
    of_tick: u64,
) -> Result<Vec<u32>, AllocError>
    ensures { IfOk result (λ values. values.items ≡ map (λ e. e.value) (events_at events.now slot of_tick)) }
{
    events
        .iter()
        .filter(|e| e.moment / 60 == of_tick)
        .filter(|e| e.slot == slot)
        .map(|e| e.value)
        .collect(alloc)
}

// The line of a slot in a tick, behind others, where it has values there.
fn slot_text(
    slots: &SlotTable,
    slot: u16,
    of_tick: u64,
    values: &[u32],
    text: &mut Vec<u8>,
) -> Result<(), AllocError>
    requires slot { slot < length slots.now }
    requires few { length values.now < 2 ^ 32 }
    requires moment { 60 * of_tick < 2 ^ 64 }
    ensures { (s : Slot) → slice_get slots.now slot ≡ Some s → OnOk result (text.new.items ≡ text.old.items ++ slot_line of_tick s values.now) }
{
    if values.is_empty() {
        return Ok(());
    }
    match value_of(slots.reduce(slot), values) {
        Some(value) => value_text(text, of_tick * TICK_SECONDS, slots.names(slot), value),
        None => Ok(()),
    }
}
