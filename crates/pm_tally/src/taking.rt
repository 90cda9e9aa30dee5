//! What a tally does with a further line.
ghost use Rattle.std.specs.Prelude.{◌≡◌, ◌++◌, ℕ, List, length};
ghost use Rattle.pm_outside.specs.Causes.{faults_after};
ghost use Rattle.pm_events.specs.declared.event.Event.{Event};
ghost use Rattle.pm_tally.specs.Counting.{Counts};
ghost use Rattle.pm_tally.specs.Tally.{ended_lines};
ghost use Rattle.pm_tally.specs.Taking.{TakesLine, WritesLine, stop_end, is_write_stop};

use crate::TallyEnd;
use crate::counting::Counting;
use crate::lines::{Fault, write_tick};
use pm_base::{Code, tick};
use pm_events::{Reader, SlotTable};
use pm_outside::Sink;

/// Why a line was not counted.
#[derive(Clone, Copy, Debug, PartialEq, Eq)]
pub enum Stop {
    /// The line is refused.
    Refused(Code),
    /// The output failed.
    WriteFault,
    /// Out of memory.
    Memory,
}

impl Stop {
    /// How a tally ends that stops at the line of this number.
    pub fn end(self, place: u64) -> TallyEnd
        ensures { result ≡ stop_end place self }
    {
        match self {
            Stop::Refused(code) => TallyEnd::Refused { line: place, code },
            Stop::WriteFault => TallyEnd::WriteFault,
            Stop::Memory => TallyEnd::Memory,
        }
    }
}

/// Counts the event of a line after earlier ones. Where it begins a later tick, the lines of the tick before are written
/// first.
pub fn take_line<K: Sink>(
    slots: &SlotTable,
    reader: &mut Reader<'_>,
    counting: &mut Counting,
    text: &mut Vec<u8>,
    line: &[u8],
    output: &mut K,
) -> Result<(), Stop>
    requires many { length counting.old.counts.items ≡ length slots.now }
    requires reader { reader.old.slots.now ≡ slots.now }
    ensures many { length counting.new.counts.items ≡ length slots.now }
    ensures reader { reader.new.slots.now ≡ slots.now }
    ensures taken { (events : List Event) → Counts slots.now counting.old events → TakesLine slots.now events line.now result counting.new }
    ensures written { K.IsTold → (events : List Event) (before : List ℕ) → Counts slots.now counting.old events → K.written output.old ≡ before ++ ended_lines slots.now events → WritesLine slots.now events line.now result before (K.written output.new) }
    ensures counted { K.faults output.new ≡ faults_after (is_write_stop result) (K.faults output.old) }
{
    let event = match reader.read(line) {
        Ok(event) => event,
        Err(code) => return Err(Stop::Refused(code)),
    };
    if let Some(code) = counting.refusal(&event) {
        return Err(Stop::Refused(code));
    }
    if tick(event.moment) == tick(counting.moment) {
        counting.add(&event);
        return Ok(());
    }
    match write_tick(slots, counting, text, output) {
        Ok(()) => {
            counting.begin(&event);
            Ok(())
        }
        Err(Fault::Write) => Err(Stop::WriteFault),
        Err(Fault::Memory) => Err(Stop::Memory),
    }
}
