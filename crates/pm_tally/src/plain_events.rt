//! The events of a whole input, one line after the other, and those that are registered.
ghost use Rattle.std.specs.Prelude.{◌≡◌, ◌≤◌, ◌<◌, ◌+◌, ◌++◌, List, map, length, Some, None, Ok, IfOk, IfErr, OnOk};
ghost use Rattle.pm_inventory.specs.Slot.{Slot};
ghost use Rattle.pm_events.specs.Event.{last_moment, events_in, events_at, is_registered, registered, registered_one, order_refusal, read_event, refusal};
ghost use Rattle.pm_tally.specs.Plain.{FindsGood};

use pm_base::{Code, tick};
use pm_events::{Event, MOST_REGISTERED, SlotTable, read_event};
use std::alloc::{AllocError, Global};

/// The events of the good lines.
#[derive(Debug, Drop)]
pub struct GoodEvents {
    /// In the order of the lines.
    pub events: Vec<Event>,
    /// Those of them that are registered.
    pub registered: Vec<Event>,
    /// The first line that is refused, if one is.
    pub refused: Option<Refused>,
}

/// A line that is refused.
#[derive(Clone, Copy, Debug, PartialEq, Eq)]
pub struct Refused {
    /// Its place among the lines of events, from 0.
    pub at: usize,
    /// By which rule.
    pub code: Code,
}

/// The events of the lines before the first one that is refused.
pub fn good_events(
    alloc: Global,
    slots: &SlotTable,
    lines: &[&[u8]],
) -> Result<GoodEvents, AllocError>
    ensures { IfOk result (FindsGood slots.now (map (λ line. line.now) lines.now)) }
{
    let mut events = Vec::new(alloc);
    let mut registered = Vec::new(alloc);
    for (at, line) in lines.iter().enumerate() {
        match good_event(slots, &events, &registered, line) {
            Ok(event) => {
                register(slots, &events, &event, &mut registered)?;
                events.push(event)?;
            }
            Err(code) => {
                let refused = Some(Refused { at, code });
                return Ok(GoodEvents {
                    events,
                    registered,
                    refused,
                });
            }
        }
    }
    Ok(GoodEvents {
        events,
        registered,
        refused: None,
    })
}

// The event of a line behind earlier events, or why the line is refused.
fn good_event(
    slots: &SlotTable,
    earlier: &[Event],
    before: &[Event],
    line: &[u8],
) -> Result<Event, Code>
    requires { before.now ≡ registered slots.now earlier.now }
    ensures event { IfOk result (λ event. read_event slots.now line.now ≡ Ok event) }
    ensures good { OnOk result (refusal slots.now earlier.now line.now ≡ None) }
    ensures refused { IfErr result (λ code. refusal slots.now earlier.now line.now ≡ Some code) }
    ensures within { IfOk result (λ event. event.slot < length slots.now) }
{
    let event = read_event(slots, line)?;
    match refusal_by_order(earlier, before, &event) {
        None => Ok(event),
        Some(code) => Err(code),
    }
}

fn refusal_by_order(earlier: &[Event], before: &[Event], event: &Event) -> Option<Code>
    ensures { (slots : List Slot) → before.now ≡ registered slots earlier.now → result ≡ order_refusal slots earlier.now event.now }
{
    if event.moment < moment_of_last(earlier) {
        return Some(Code::E5);
    }
    if count_in(before, tick(event.moment)) >= MOST_REGISTERED as usize {
        return Some(Code::E4);
    }
    None
}

/// The moment of the last event, and 0 of none.
pub fn moment_of_last(events: &[Event]) -> u64
    ensures { result ≡ last_moment events.now }
{
    match events.last() {
        Some(event) => event.moment,
        None => 0,
    }
}

// How many events are in a tick.
fn count_in(events: &[Event], of_tick: u64) -> usize
    ensures { result ≡ length (events_in events.now of_tick) }
{
    events.iter().filter(|e| e.moment / 60 == of_tick).count()
}

// Puts the event behind those that are registered, where it is.
fn register(
    slots: &SlotTable,
    earlier: &[Event],
    event: &Event,
    found: &mut Vec<Event>,
) -> Result<(), AllocError>
    requires { event.now.slot < length slots.now }
    ensures { OnOk result (found.new.items ≡ found.old.items ++ registered_one slots.now earlier.now event.now) }
{
    if counts(slots, earlier, event) {
        found.push(*event)?;
    }
    Ok(())
}

fn counts(slots: &SlotTable, earlier: &[Event], event: &Event) -> bool
    requires { event.now.slot < length slots.now }
    ensures { result ≡ is_registered slots.now earlier.now event.now }
{
    let registers_each = usize::from(slots.registers_each(event.slot));
    count_at(earlier, event.slot, tick(event.moment)) % registers_each + 1 == registers_each
}

// How many events a slot has in a tick.
fn count_at(events: &[Event], slot: u16, of_tick: u64) -> usize
    ensures { result ≡ length (events_at events.now slot of_tick) }
{
    events
        .iter()
        .filter(|e| e.moment / 60 == of_tick)
        .filter(|e| e.slot == slot)
        .count()
}
