//! The tally of a whole input, computed as it is defined: of all lines first, then of each tick and slot.
//!
//! It is slow, and holds the input's events. Tests compare the program with it.
ghost use Rattle.std.specs.Prelude.{◌≡◌, ◌≤◌, ◌<◌, ◌+◌, ◌^◌, ◌++◌, ℕ, List, [], map, length, drop, IfOk};
ghost use Rattle.pm_base.specs.Lines.{lines_of_parts};
ghost use Rattle.pm_base.specs.Pieces.{pieces_of};
ghost use Rattle.pm_inventory.specs.Slot.{event_slots};
ghost use Rattle.pm_tally.specs.Outcome.{ran, IsOutcome};
ghost use Rattle.pm_tally.specs.Plain.{IsByRule, EndsBy};

use crate::TallyEnd;
use crate::plain_events::{GoodEvents, Refused, good_events, moment_of_last};
use crate::plain_text::text_before;
use pm_base::{Blob, Code, tick};
use pm_events::SlotTable;
use pm_inventory::{InventoryError, ReadInventory, read_inventory};
use pm_outside::{Feed, MemSource};
use std::alloc::{AllocError, Global};

/// How a tally ends that meets no fault, and what it has written then.
#[derive(Debug, Drop)]
pub struct PlainTally {
    /// `Done`, `Refused` or `BadInventory`.
    pub end: TallyEnd,
    /// The lines, with their line feeds.
    pub text: Blob,
}

/// Tallies an input of fewer bytes than are read at the most. Out of memory is the one error.
pub fn plain_tally(alloc: Global, input: &[u8]) -> Result<PlainTally, AllocError>
    requires { length input.now < 2 ^ 40 }
    ensures outcome { IfOk result (λ plain. (left : List ℕ) → IsOutcome (ran 0 input.now left (Unit {0}) [] plain.text) plain.end) }
    ensures by_rule { IfOk result (λ plain. IsByRule plain.end) }
{
    let parts = split(alloc, input)?;
    let mut feed = Feed::new(alloc)?;
    let mut source = MemSource::new(alloc, input, &[])?;
    match read_inventory(alloc, &mut feed, &mut source) {
        Ok(read) => tally_of(alloc, &read, lines_after(lines_among(&parts), read.lines)),
        Err(InventoryError::Refused { line, code }) => Ok(bad_inventory(alloc, line, code)),
        Err(_) => Err(AllocError),
    }
}

fn bad_inventory(alloc: Global, line: u64, code: Code) -> PlainTally
    ensures end { result.end ≡ TallyEnd.BadInventory line code }
    ensures text { result.text ≡ [] }
{
    PlainTally {
        end: TallyEnd::BadInventory { line, code },
        text: Blob::new(alloc),
    }
}

// The parts between line feeds.
fn split(alloc: Global, input: &[u8]) -> Result<Vec<&[u8]>, AllocError>
    ensures { IfOk result (λ parts. map (λ part. part.now) parts.items ≡ pieces_of 10 input.now) }
{
    input.split(|b| *b == b'\n').collect(alloc)
}

// The lines among the parts between line feeds.
fn lines_among<'a, 'b>(parts: &'a [&'b [u8]]) -> &'a [&'b [u8]]
    ensures { map (λ line. line.now) result.now ≡ lines_of_parts (map (λ part. part.now) parts.now) }
{
    match parts {
        [] => parts,
        [lines @ .., last] => { if last.is_empty() { lines } else { parts } }
    }
}

// The lines after so many.
fn lines_after<'a, 'b>(lines: &'a [&'b [u8]], many: u64) -> &'a [&'b [u8]]
    ensures { many ≤ length lines.now → result.now ≡ drop many lines.now }
{
    &lines[lines.len().min(many as usize)..]
}

// Tallies the lines of events after an inventory.
fn tally_of(alloc: Global, read: &ReadInventory, lines: &[&[u8]]) -> Result<PlainTally, AllocError>
    requires { read.now.lines < 2 ^ 62 }
    ensures { IfOk result (λ plain. EndsBy (event_slots read.now.inventory) (read.now.lines + 1) (map (λ line. line.now) lines.now) plain.text plain.end) }
{
    let slots = SlotTable::new(alloc, &read.inventory)?;
    let GoodEvents {
        events,
        registered,
        refused,
    } = good_events(alloc, &slots, lines)?;
    let last_tick = tick(moment_of_last(&events));
    match refused {
        None => Ok(PlainTally {
            end: TallyEnd::Done,
            text: Blob::from_vec(text_before(alloc, &slots, &registered, last_tick + 1)?),
        }),
        Some(Refused { at, code }) => Ok(PlainTally {
            end: TallyEnd::Refused {
                line: at as u64 + read.lines + 1,
                code,
            },
            text: Blob::from_vec(text_before(alloc, &slots, &registered, last_tick)?),
        }),
    }
}
