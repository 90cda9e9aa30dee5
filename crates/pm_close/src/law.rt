//! What holds of kept cells and of marks over every history.
ghost use Rattle.pm_close.specs.Closer.{CloserStays};
ghost use Rattle.pm_close.specs.Laws.{BootCountsNone, CellsKnown, CellsStay, DueIsFile, GapsHaveNoFiles, MarksStay, MonitorsStay, ReportsStay, SequencesTakeValues};

/// An entry in the tick of the last moment leaves what is kept. A law: the call does nothing.
pub fn cells_stay()
    ensures { CellsStay }
{}

/// A request in the tick of the last moment, an event and a subscription leave the closer. A law: the call does nothing.
pub fn closer_stays()
    ensures { CloserStays }
{}

/// An entry leaves the marks of ticks that are over. A law: the call does nothing.
pub fn marks_stay()
    ensures { MarksStay }
{}

/// A start of the program counts none of the ticks that it ends. A law: the call does nothing.
pub fn boot_counts_none()
    ensures { BootCountsNone }
{}

/// Kept cells and the cells of the open tick are those of all ticks that an entry ends. A law: the call does nothing.
pub fn cells_known()
    ensures { CellsKnown }
{}

/// A reporting period that lies wholly in a gap has no file, so that a gap costs what is open. A law: the call does nothing.
pub fn gaps_have_no_files()
    ensures { GapsHaveNoFiles }
{}

/// An entry leaves what is kept of a job up to a tick. A law: the call does nothing.
pub fn reports_stay()
    ensures { ReportsStay }
{}

/// An entry leaves what is kept of a monitor up to a tick. A law: the call does nothing.
pub fn monitors_stay()
    ensures { MonitorsStay }
{}

/// The parts of a report that is due make the file of its reporting period. A law: the call does nothing.
pub fn due_is_file()
    ensures { DueIsFile }
{}

/// What a value sequence takes of a granularity period. A law: the call does nothing.
pub fn sequences_take_values()
    ensures { SequencesTakeValues }
{}
