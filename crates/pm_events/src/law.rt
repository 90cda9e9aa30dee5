//! What holds of lines of a batch and lines of events.
ghost use Rattle.pm_events.specs.BatchLine.{AreEventLines};

/// A line of a batch says what the line of events says that has a moment before it. A law: the call does nothing.
pub fn batch_lines_are_event_lines()
    ensures { AreEventLines }
{}
