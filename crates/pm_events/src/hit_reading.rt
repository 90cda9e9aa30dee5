//! The reading of a line of a batch.
ghost use Rattle.std.specs.Prelude.{◌≡◌, ◌≤◌, ◌<◌, length, Some, Ok, IfOk, IfSome};
ghost use Rattle.pm_events.specs.EventLine.{AreNames};
ghost use Rattle.pm_events.specs.BatchLine.{read_hit, hit_of};

use crate::batch_line::{BatchLine, read_batch_line};
use crate::reader::event_behind;
use crate::{Hit, SlotTable};
use pm_base::Code;
use pm_meas::MAX_VALUE;

/// Reads a line `LDN METRIC VALUE`: a hit, or the first rule that the line breaks by itself, of E1 (the form), E2 (no such
/// slot) and E3 (a value over 1,048,575).
#[inline(always)]
pub fn read_hit(slots: &SlotTable, line: &[u8]) -> Result<Hit, Code>
    ensures hit { result ≡ read_hit slots.now line.now }
    ensures sound { IfOk result (λ hit. (hit.value ≤ MAX_VALUE) × (hit.slot < length slots.now)) }
{
    match usual(slots, line) {
        Some(hit) => Ok(hit),
        None => unusual(slots, line),
    }
}

// As a line of events is read behind its moment. None says nothing.
#[inline(always)]
fn usual(slots: &SlotTable, line: &[u8]) -> Option<Hit>
    ensures hit { IfSome result (λ hit. read_hit slots.now line.now ≡ Ok hit) }
    ensures sound { IfSome result (λ hit. (hit.value ≤ MAX_VALUE) × (hit.slot < length slots.now)) }
{
    let event = event_behind(slots, 0, line)?;
    Some(Hit {
        slot: u32::from(event.slot),
        value: event.value,
    })
}

// Any line, word by word.
#[cold]
#[inline(never)]
fn unusual(slots: &SlotTable, line: &[u8]) -> Result<Hit, Code>
    ensures hit { result ≡ read_hit slots.now line.now }
    ensures sound { IfOk result (λ hit. (hit.value ≤ MAX_VALUE) × (hit.slot < length slots.now)) }
{
    match read_batch_line(line) {
        None => Err(Code::E1),
        Some(value) => hit_in(slots, &value),
    }
}

fn hit_in(slots: &SlotTable, value: &BatchLine<'_>) -> Result<Hit, Code>
    requires { AreNames value.now.object.now value.now.metric.now value.now.names.now }
    ensures sound { IfOk result (λ hit. (hit.value ≤ MAX_VALUE) × (hit.slot < length slots.now)) }
    ensures hit { result ≡ hit_of slots.now (Some (record { object = value.now.object.now; metric = value.now.metric.now; value = value.now.value })) }
{
    let Some(slot) = slots.find(value.names) else {
        return Err(Code::E2);
    };
    if value.value > MAX_VALUE as u64 {
        return Err(Code::E3);
    }
    Ok(Hit {
        slot: u32::from(slot),
        value: value.value as u32,
    })
}
