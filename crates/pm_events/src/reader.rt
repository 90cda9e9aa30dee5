//! The reading of lines of events, most of which have the moment of the line before them, byte for byte.
ghost use Rattle.std.specs.Prelude.{◌≡◌, ◌≤◌, ◌<◌, ◌++◌, ◌∷◌, [], ℕ, List, length, take, true, Ok, IfOk, IfSome, IsTrue};
ghost use Rattle.pm_base.specs.Number.{is_moment, number_of};
ghost use Rattle.pm_events.specs.Event.{read_event};

use crate::event_reading::read_event;
use crate::last_word::last_number;
use crate::{Event, SlotTable};
use pm_base::{Code, read_moment};
use pm_meas::MAX_VALUE;

// The digits of a moment of today, and the space behind them.
const WORD: usize = 11;

/// Reads lines of events of these slots. It keeps the moment of an earlier line, and the bytes by which a line begins that has
/// it: ten digits and a space.
#[derive(Debug, Drop)]
pub struct Reader<'a> {
    slots: &'a SlotTable,
    text: [u8; 11],
    moment: u64,
    ghost spaced: { text ≡ take 10 text ++ 32 ∷ [] },
    ghost word: { is_moment (take 10 text) ≡ true },
    ghost value: { moment ≡ number_of (take 10 text) },
}

impl<'a> Reader<'a> {
    /// Of no line yet, with the moment 0.
    pub fn new(slots: &'a SlotTable) -> Reader<'a>
        ensures { result.slots.now ≡ slots.now }
    {
        Reader {
            slots,
            text: *b"0000000000 ",
            moment: 0,
        }
    }

    /// Reads a line `MOMENT LDN METRIC VALUE`: an event, or the first rule that the line breaks by itself, of E1 (the form), E2
    /// (no such slot) and E3 (a value over 1,048,575).
    #[inline(always)]
    pub fn read(&mut self, line: &[u8]) -> Result<Event, Code>
        ensures event { result ≡ read_event self.old.slots.now line.now }
        ensures sound { IfOk result (λ event. (event.value ≤ MAX_VALUE) × (event.slot < length self.old.slots.now)) }
        ensures slots { self.new.slots.now ≡ self.old.slots.now }
    {
        match self.usual(line) {
            Some(event) => Ok(event),
            None => self.unusual(line),
        }
    }

    // The event of a line that begins as the one before. None says nothing.
    #[inline(always)]
    fn usual(&self, line: &[u8]) -> Option<Event>
        ensures event { IfSome result (λ event. read_event self.now.slots.now line.now ≡ Ok event) }
        ensures sound { IfSome result (λ event. (event.value ≤ MAX_VALUE) × (event.slot < length self.now.slots.now)) }
    {
        if !begins(line, &self.text) {
            return None;
        }
        let event = event_behind(self.slots, self.moment, &line[WORD..])?;
        Some(event)
    }

    // Any line, which the next ones may resemble.
    #[cold]
    #[inline(never)]
    fn unusual(&mut self, line: &[u8]) -> Result<Event, Code>
        ensures event { result ≡ read_event self.old.slots.now line.now }
        ensures sound { IfOk result (λ event. (event.value ≤ MAX_VALUE) × (event.slot < length self.old.slots.now)) }
        ensures slots { self.new.slots.now ≡ self.old.slots.now }
    {
        self.note(line);
        read_event(self.slots, line)
    }

    fn note(&mut self, line: &[u8])
        ensures { self.new.slots.now ≡ self.old.slots.now }
    {
        let Some(text) = line.first_chunk::<11>() else {
            return;
        };
        if text[10] != b' ' {
            return;
        }
        if let Some(moment) = read_moment(&text[..10]) {
            *self = Reader {
                slots: self.slots,
                text: *text,
                moment,
            };
        }
    }
}

// Whether the line begins with the text. The first eight bytes are compared as one number.
#[inline(always)]
fn begins(line: &[u8], text: &[u8; 11]) -> bool
    ensures long { IsTrue result → 11 ≤ length line.now }
    ensures same { IsTrue result → take 11 line.now ≡ text.now }
{
    if line.len() < WORD {
        return false;
    }
    let (Some(front), Some(word)) = (line.first_chunk::<8>(), text.first_chunk::<8>()) else {
        return false;
    };
    if !is_same(front, word) {
        return false;
    }
    for i in 8..WORD {
        if line[i] != text[i] {
            return false;
        }
    }
    true
}

#[inline(always)]
fn is_same(a: &[u8; 8], b: &[u8; 8]) -> bool
    ensures { IsTrue result → a.now ≡ b.now }
{
    u64::from_le_bytes(*a) == u64::from_le_bytes(*b)
}

// The event of this moment with these words behind it. None says nothing.
#[inline(always)]
pub(crate) fn event_behind(slots: &SlotTable, moment: u64, words: &[u8]) -> Option<Event>
    ensures event { IfSome result (λ event. (word : List ℕ) → is_moment word ≡ true → moment ≡ number_of word → read_event slots.now (word ++ 32 ∷ words.now) ≡ Ok event) }
    ensures sound { IfSome result (λ event. (event.value ≤ MAX_VALUE) × (event.slot < length slots.now)) }
{
    if words.len() > 2_000 {
        return None;
    }
    let last = last_number(words)?;
    if last.value > MAX_VALUE as u64 {
        return None;
    }
    let slot = slots.find(&words[..last.space])?;
    Some(Event {
        moment,
        slot,
        value: last.value as u32,
    })
}
