//! The tally of a stream of events.
ghost use Rattle.std.specs.Prelude.{◌≡◌, ◌≢◌, ◌+◌, ◌++◌, ◌≤◌, ◌<◌, ◌^◌, [], ℕ, List, length};
ghost use Rattle.pm_outside.specs.Causes.{faults_after};
ghost use Rattle.pm_outside.specs.Feed.{left_to, KnowsEnd, MOST_AHEAD};
ghost use Rattle.pm_inventory.specs.Slot.{event_slots};
ghost use Rattle.pm_events.specs.declared.event.Event.{Event};
ghost use Rattle.pm_tally.specs.Tally.{ended_lines};
ghost use Rattle.pm_tally.specs.Counting.{Counts};
ghost use Rattle.pm_tally.specs.Ends.{is_read_fault, is_write_fault};
ghost use Rattle.pm_tally.specs.Finishing.{IsEnd, IsLastEnd, HasText, Finishes, TakesLast, WritesLast};
ghost use Rattle.pm_tally.specs.Outcome.{ran, IsTallied, IsOutcome, end_of_inventory};

use crate::TallyEnd;
use crate::counting::Counting;
use crate::lines::{Fault, write_tick};
use crate::taking::take_line;
use pm_base::Code;
use pm_events::{Reader, SlotTable};
use pm_inventory::{InventoryError, ReadInventory, read_inventory};
use pm_outside::{Feed, FeedError, NextLine, Sink, Source, next_line};
use std::alloc::Global;

// Tallies the lines of events that are left, of which `first` is the number of the first.
fn tally_lines<S: Source, K: Sink>(
    slots: &SlotTable,
    counting: &mut Counting,
    first: u64,
    feed: &mut Feed,
    input: &mut S,
    text: &mut Vec<u8>,
    output: &mut K,
) -> TallyEnd
    requires none { Counts slots.now counting.old [] }
    requires many { length counting.old.counts.items ≡ length slots.now }
    requires first { first < 2 ^ 63 }
    requires knows_end { S.IsTold → KnowsEnd feed.old (S.left input.old) }
    ensures tallied { S.IsTold → IsTallied slots.now first (ran feed.old.given (left_to feed.old (S.left input.old)) (S.left input.new) K.IsTold (K.written output.old) (K.written output.new)) result }
    ensures read { S.faults input.new ≡ faults_after (is_read_fault result) (S.faults input.old) }
    ensures write { K.faults output.new ≡ faults_after (is_write_fault result) (K.faults output.old) }
{
    let mut reader = Reader::new(slots);
    let mut place = first;
    'lines: loop {
        match next_line(feed, input) {
            Ok(NextLine::Line) => {}
            Ok(NextLine::Last) => return finish_line(
                slots,
                &mut reader,
                counting,
                text,
                feed.bytes(),
                place,
                output,
            ),
            Ok(NextLine::Long) => return refused(place, Code::E1),
            Ok(NextLine::None) => return finish(slots, counting, text, output),
            Err(FeedError::Limit) => return TallyEnd::TooLong,
            Err(FeedError::Failed) => return TallyEnd::ReadFault,
        }
        match take_line(slots, &mut reader, counting, text, feed.bytes(), output) {
            Ok(()) => place += 1,
            Err(stop) => return stop.end(place),
        }
    }
}

fn refused(line: u64, code: Code) -> TallyEnd
    ensures { result ≡ TallyEnd.Refused line code }
{
    TallyEnd::Refused { line, code }
}

// Takes the last line, and writes the lines of the last tick.
fn finish_line<K: Sink>(
    slots: &SlotTable,
    reader: &mut Reader<'_>,
    counting: &mut Counting,
    text: &mut Vec<u8>,
    line: &[u8],
    place: u64,
    output: &mut K,
) -> TallyEnd
    requires many { length counting.old.counts.items ≡ length slots.now }
    requires reader { reader.old.slots.now ≡ slots.now }
    ensures finished { K.IsTold → (events : List Event) (before : List ℕ) → Counts slots.now counting.old events → K.written output.old ≡ before ++ ended_lines slots.now events → WritesLast slots.now events line.now before (K.written output.new) result }
    ensures taken { (events : List Event) → Counts slots.now counting.old events → TakesLast slots.now events line.now place result }
    ensures known { IsLastEnd result }
    ensures write { K.faults output.new ≡ faults_after (is_write_fault result) (K.faults output.old) }
{
    match take_line(slots, reader, counting, text, line, output) {
        Ok(()) => finish(slots, counting, text, output),
        Err(stop) => stop.end(place),
    }
}

// Writes the lines of the last tick.
fn finish<K: Sink>(
    slots: &SlotTable,
    counting: &Counting,
    text: &mut Vec<u8>,
    output: &mut K,
) -> TallyEnd
    requires { length counting.now.counts.items ≡ length slots.now }
    ensures finished { K.IsTold → (events : List Event) (before : List ℕ) → Counts slots.now counting.now events → K.written output.old ≡ before ++ ended_lines slots.now events → Finishes slots.now events before (K.written output.new) result }
    ensures some { (events : List Event) → Counts slots.now counting.now events → HasText slots.now events result }
    ensures known { IsEnd result }
    ensures write { K.faults output.new ≡ faults_after (is_write_fault result) (K.faults output.old) }
{
    match write_tick(slots, counting, text, output) {
        Ok(()) => TallyEnd::Done,
        Err(Fault::Write) => TallyEnd::WriteFault,
        Err(Fault::Memory) => TallyEnd::Memory,
    }
}

// Tallies the lines after an inventory of so many lines.
fn tally_inventory<S: Source, K: Sink>(
    alloc: Global,
    read: &ReadInventory,
    feed: &mut Feed,
    input: &mut S,
    output: &mut K,
) -> TallyEnd
    requires few { read.now.lines < 2 ^ 62 }
    requires ahead { length feed.old.buffered ≤ MOST_AHEAD }
    requires knows_end { S.IsTold → KnowsEnd feed.old (S.left input.old) }
    ensures tallied { S.IsTold → IsTallied (event_slots read.now.inventory) (read.now.lines + 1) (ran feed.old.given (left_to feed.old (S.left input.old)) (S.left input.new) K.IsTold (K.written output.old) (K.written output.new)) result }
    ensures read { S.faults input.new ≡ faults_after (is_read_fault result) (S.faults input.old) }
    ensures write { K.faults output.new ≡ faults_after (is_write_fault result) (K.faults output.old) }
{
    let Ok(slots) = SlotTable::new(alloc, &read.inventory) else {
        return TallyEnd::Memory;
    };
    let Ok(mut counting) = Counting::new(alloc, &slots) else {
        return TallyEnd::Memory;
    };
    let mut text = Vec::new(alloc);
    tally_lines(
        &slots,
        &mut counting,
        read.lines + 1,
        feed,
        input,
        &mut text,
        output,
    )
}

// How a tally ends whose inventory is not read.
fn inventory_end(error: InventoryError) -> TallyEnd
    ensures { result ≡ end_of_inventory error }
{
    match error {
        InventoryError::Refused { line, code } => TallyEnd::BadInventory { line, code },
        InventoryError::Failed => TallyEnd::ReadFault,
        InventoryError::Limit => TallyEnd::TooLong,
        InventoryError::Memory => TallyEnd::Memory,
    }
}

/// Reads an inventory and then lines `MOMENT LDN METRIC VALUE` from the input, and writes, for each tick with registered
/// events, the line `MOMENT LDN METRIC VALUE` of each slot that had one, MOMENT being the tick's first. The lines of a tick
/// are written once a line of a later tick was read, or at the end.
pub fn tally<S: Source, K: Sink>(alloc: Global, input: &mut S, output: &mut K) -> TallyEnd
    ensures outcome { S.IsTold → IsOutcome (ran 0 (S.left input.old) (S.left input.new) K.IsTold (K.written output.old) (K.written output.new)) result }
    ensures read { S.faults input.new ≡ faults_after (is_read_fault result) (S.faults input.old) }
    ensures write { K.faults output.new ≡ faults_after (is_write_fault result) (K.faults output.old) }
{
    let Ok(mut feed) = Feed::new(alloc) else {
        return TallyEnd::Memory;
    };
    match read_inventory(alloc, &mut feed, input) {
        Ok(read) => tally_inventory(alloc, &read, &mut feed, input, output),
        Err(error) => inventory_end(error),
    }
}
