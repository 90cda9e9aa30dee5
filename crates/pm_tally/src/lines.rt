//! The lines that a tally writes.
ghost use Rattle.std.specs.Prelude.{◌≡◌, ◌≤◌, ◌<◌, ◌+◌, ◌*◌, ◌^◌, ℕ, List, ◌++◌, ◌∷◌, [], length, take, Some, slice_get, OnOk, MatchResult, Err};
ghost use Rattle.pm_outside.specs.Causes.{faults_after};
ghost use Rattle.pm_base.specs.Moment.{tick_of};
ghost use Rattle.pm_meas.specs.Cell.{cell_of};
ghost use Rattle.pm_inventory.specs.Slot.{Slot};
ghost use Rattle.pm_events.specs.declared.event.Event.{Event};
ghost use Rattle.pm_tally.specs.Tally.{value_line, slot_line, tick_lines};
ghost use Rattle.pm_tally.specs.Counting.{Counts};
ghost use Rattle.pm_tally.specs.Taking.{is_write_failed};

use crate::counting::Counting;
use itoa::Buffer;
use pm_base::{TICK_SECONDS, tick};
use pm_events::SlotTable;
use pm_meas::Cell;
use pm_outside::Sink;
use std::alloc::AllocError;

/// Why lines were not written.
#[derive(Clone, Copy, Debug, PartialEq, Eq)]
pub enum Fault {
    /// The output failed.
    Write,
    /// Out of memory.
    Memory,
}

/// Writes the lines of the tick that is counted, by a text of which the room is used again.
pub fn write_tick<K: Sink>(
    slots: &SlotTable,
    counting: &Counting,
    text: &mut Vec<u8>,
    output: &mut K,
) -> Result<(), Fault>
    requires { length counting.now.counts.items ≡ length slots.now }
    ensures written { K.IsTold → (events : List Event) → Counts slots.now counting.now events → let lines = tick_lines slots.now events (tick_of counting.now.moment) in MatchResult result (λ _. K.written output.new ≡ K.written output.old ++ lines) (λ _. (bytes : ℕ) × (K.written output.new ≡ K.written output.old ++ take bytes lines)) }
    ensures some { (events : List Event) → Counts slots.now counting.now events → result ≡ Err Fault.Write → 0 < length (tick_lines slots.now events (tick_of counting.now.moment)) }
    ensures counted { K.faults output.new ≡ faults_after (is_write_failed result) (K.faults output.old) }
{
    match tick_text(slots, counting, text) {
        Ok(()) => put_text(text, output),
        Err(_) => Err(Fault::Memory),
    }
}

fn put_text<K: Sink>(text: &[u8], output: &mut K) -> Result<(), Fault>
    ensures written { K.IsTold → MatchResult result (λ _. K.written output.new ≡ K.written output.old ++ text.now) (λ _. (bytes : ℕ) × (K.written output.new ≡ K.written output.old ++ take bytes text.now)) }
    ensures some { result ≡ Err Fault.Write → 0 < length text.now }
    ensures counted { K.faults output.new ≡ faults_after (is_write_failed result) (K.faults output.old) }
{
    if text.is_empty() {
        return Ok(());
    }
    match output.put(text) {
        Ok(()) => Ok(()),
        Err(_) => Err(Fault::Write),
    }
}

// The lines of the tick that is counted, in the order of the slots.
fn tick_text(slots: &SlotTable, counting: &Counting, text: &mut Vec<u8>) -> Result<(), AllocError>
    requires { length counting.now.counts.items ≡ length slots.now }
    ensures { (events : List Event) → Counts slots.now counting.now events → OnOk result (text.new.items ≡ tick_lines slots.now events (tick_of counting.now.moment)) }
{
    text.clear();
    let of_tick = tick(counting.moment);
    for slot in 0..slots.len() {
        cell_text(
            slots,
            slot,
            of_tick,
            &counting.counts[slot as usize].cell,
            text,
        )?;
    }
    Ok(())
}

// The line of a slot, after other lines.
fn cell_text(
    slots: &SlotTable,
    slot: u16,
    of_tick: u64,
    cell: &Cell,
    text: &mut Vec<u8>,
) -> Result<(), AllocError>
    requires slot { slot < length slots.now }
    requires moment { 60 * of_tick < 2 ^ 64 }
    ensures { (s : Slot) (values : List ℕ) → slice_get slots.now slot ≡ Some s → cell.now ≡ cell_of values → OnOk result (text.new.items ≡ text.old.items ++ slot_line of_tick s values) }
{
    if cell.n == 0 {
        return Ok(());
    }
    match cell.reduce(slots.reduce(slot)) {
        Some(value) => value_text(text, of_tick * TICK_SECONDS, slots.names(slot), value),
        None => Ok(()),
    }
}

/// Appends a line, with its line feed.
pub fn value_text(
    text: &mut Vec<u8>,
    moment: u64,
    names: &[u8],
    value: u64,
) -> Result<(), AllocError>
    ensures { (slot : Slot) → names.now ≡ slot.object ++ 32 ∷ slot.metric → OnOk result (text.new.items ≡ text.old.items ++ value_line moment slot (Some value)) }
{
    let mut digits = Buffer::new();
    text.extend_from_slice(digits.format(moment).as_bytes())?;
    text.extend_from_slice(b" ")?;
    text.extend_from_slice(names)?;
    text.extend_from_slice(b" ")?;
    text.extend_from_slice(digits.format(value).as_bytes())?;
    text.extend_from_slice(b"\n")
}
