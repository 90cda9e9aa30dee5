//! The hits of a batch.
ghost use Rattle.std.specs.Prelude.{◌≡◌, ◌≤◌, ◌<◌, ◌+◌, ◌++◌, ◌∷◌, [], List, length, Result, Ok, OnOk, OnErr, IfErr};
ghost use Rattle.pm_base.specs.Lines.{lines_of};
ghost use Rattle.pm_events.specs.BatchLine.{read_hit};
ghost use Rattle.pm_events.specs.declared.hit.Hit.{Hit};
ghost use Rattle.pm_batch.specs.Reading.{read_batch, with_line, Refusal, AddsHit, AreOfSlots, Tells};

use crate::BatchError;
use crate::next_line::next_line;
use pm_events::{Hit, SlotTable, read_hit};
use std::alloc::Global;
use std::marker::Model;

/// The most bytes of a batch's body.
pub const MOST_BODY: usize = 16_777_216;

/// What the lines of a batch say, in order. It is read into the same memory again and again.
#[derive(Debug, Drop)]
pub struct Batch {
    hits: Vec<Hit>,
}

impl Model for Batch {
    ghost use Rattle.std.specs.Prelude.{List};
    ghost use Rattle.pm_events.specs.declared.hit.Hit.{Hit};

    ghost Value = { List Hit };

    ghost view = { λ b. b.hits.items };
}

impl Batch {
    /// Of no line. It takes no memory yet.
    pub fn new(alloc: Global) -> Batch
        ensures { result ≡ [] }
    {
        Batch {
            hits: Vec::new(alloc),
        }
    }

    /// Reads the lines of a body in place of those before, `LDN METRIC VALUE` each. An empty body has none, and the last line
    /// may lack its line feed. After an error the batch is empty.
    pub fn read(&mut self, slots: &SlotTable, body: &[u8]) -> Result<(), BatchError>
        requires { length body.now ≤ MOST_BODY }
        ensures read { OnOk result (read_batch slots.now body.now ≡ Ok self.new) }
        ensures lines { OnOk result (length self.new ≡ length (lines_of body.now)) }
        ensures sound { AreOfSlots (length slots.now) self.new }
        ensures few { length self.new ≤ MOST_BODY }
        ensures refused { IfErr result (λ e. Tells e (read_batch slots.now body.now)) }
        ensures emptied { OnErr result (self.new ≡ []) }
    {
        self.hits.clear();
        match read_hits(slots, body, &mut self.hits) {
            Ok(()) => Ok(()),
            Err(error) => {
                self.hits.clear();
                Err(error)
            }
        }
    }

    /// Empties the batch.
    pub fn clear(&mut self)
        ensures { self.new ≡ [] }
    {
        self.hits.clear();
    }

    /// The hits, a line's each, in order.
    pub fn hits(&self) -> &[Hit]
        ensures { result.now ≡ self.now }
    {
        self.hits.as_slice()
    }
}

// Reads the lines of a body into no hits.
fn read_hits(slots: &SlotTable, body: &[u8], hits: &mut Vec<Hit>) -> Result<(), BatchError>
    requires short { length body.now ≤ MOST_BODY }
    requires none { hits.old.items ≡ [] }
    ensures read { OnOk result (read_batch slots.now body.now ≡ Ok hits.new.items) }
    ensures lines { OnOk result (length hits.new.items ≡ length (lines_of body.now)) }
    ensures sound { OnOk result (AreOfSlots (length slots.now) hits.new.items) }
    ensures few { OnOk result (length hits.new.items ≤ MOST_BODY) }
    ensures refused { IfErr result (λ e. Tells e (read_batch slots.now body.now)) }
{
    let mut rest = body;
    while let Some((line, behind)) = next_line(rest) {
        if let Err(error) = take_line(slots, line, hits) {
            return Err(error);
        }
        rest = behind;
    }
    Ok(())
}

// Puts the hit of a line behind the others.
#[inline(always)]
fn take_line(slots: &SlotTable, line: &[u8], hits: &mut Vec<Hit>) -> Result<(), BatchError>
    requires few { length hits.old.items < MOST_BODY }
    ensures taken { OnOk result (AddsHit slots.now line.now hits.old.items hits.new.items) }
    ensures refused { IfErr result (λ e. (others : Result (List Hit) Refusal) → Tells e (with_line (length hits.old.items + 1) (read_hit slots.now line.now) others)) }
{
    let number = hits.len() as u32 + 1;
    match read_hit(slots, line) {
        Ok(hit) => push(hits, hit),
        Err(code) => Err(BatchError::Refused { line: number, code }),
    }
}

#[inline(always)]
fn push(hits: &mut Vec<Hit>, hit: Hit) -> Result<(), BatchError>
    ensures pushed { OnOk result (hits.new.items ≡ hits.old.items ++ hit ∷ []) }
    ensures memory { IfErr result (λ e. e ≡ BatchError.Memory) }
{
    match hits.push(hit) {
        Ok(()) => Ok(()),
        Err(_) => Err(BatchError::Memory),
    }
}
