//! Whether measures may be read.

ghost use Rattle.std.specs.Prelude.{◌↔◌, ◌<◌, IsTrue};
ghost use Rattle.pm_close.specs.Parts.{AreWithin};

use crate::measure::Measure;

/// Whether the slot of each measure is one of so many.
pub fn are_within(slots: usize, measures: &[Measure]) -> bool
    ensures { IsTrue result ↔ AreWithin slots measures.now }
{
    measures.iter().all(|m| (m.slot as usize) < slots)
}
