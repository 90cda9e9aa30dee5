//! The reading of a line of events.
ghost use Rattle.std.specs.Prelude.{◌≡◌, ◌≤◌, ◌<◌, length, Some, IfOk};
ghost use Rattle.pm_events.specs.EventLine.{AreNames};
ghost use Rattle.pm_events.specs.Event.{read_event, event_of};

use crate::{Event, EventLine, SlotTable, read_event_line};
use pm_base::Code;
use pm_meas::MAX_VALUE;

/// Reads a line `MOMENT LDN METRIC VALUE`: an event, or the first rule that the line breaks by itself, of E1 (the form), E2
/// (no such slot) and E3 (a value over 1,048,575).
pub fn read_event(slots: &SlotTable, line: &[u8]) -> Result<Event, Code>
    ensures event { result ≡ read_event slots.now line.now }
    ensures sound { IfOk result (λ event. (event.value ≤ MAX_VALUE) × (event.slot < length slots.now)) }
{
    match read_event_line(line) {
        None => Err(Code::E1),
        Some(event) => place(slots, &event),
    }
}

fn place(slots: &SlotTable, event: &EventLine<'_>) -> Result<Event, Code>
    requires { AreNames event.now.object.now event.now.metric.now event.now.names.now }
    ensures sound { IfOk result (λ event. (event.value ≤ MAX_VALUE) × (event.slot < length slots.now)) }
    ensures event { result ≡ event_of slots.now (Some (record { moment = event.now.moment; object = event.now.object.now; metric = event.now.metric.now; value = event.now.value })) }
{
    let Some(slot) = slots.find(event.names) else {
        return Err(Code::E2);
    };
    if event.value > MAX_VALUE as u64 {
        return Err(Code::E3);
    }
    Ok(Event {
        moment: event.moment,
        slot,
        value: event.value as u32,
    })
}
