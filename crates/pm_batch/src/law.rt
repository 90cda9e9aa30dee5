//! What holds of batches and of the open tick.
ghost use Rattle.pm_batch.specs.Laws.{BatchesFollow, BatchesUnstored, CellsOfTick, EventsStay, FirstIsRefused, NumbersOfTick, TickStays};

/// Changes, and requests in the same tick, leave what is kept of the open tick. A law: the call does nothing.
pub fn tick_stays()
    ensures { TickStays }
{}

/// A history with the entries of a batch is one, at the same moment. A law: the call does nothing.
pub fn batches_follow()
    ensures { BatchesFollow }
{}

/// The entries of a batch may come next, and none has an item. A law: the call does nothing.
pub fn batches_unstored()
    ensures { BatchesUnstored }
{}

/// Changes, and requests in the same tick, leave the batch that waits too. A law: the call does nothing.
pub fn events_stay()
    ensures { EventsStay }
{}

/// Where no start of the program cuts the tick of the last moment, the cells are those of the tick. A law: the call does nothing.
pub fn cells_of_tick()
    ensures { CellsOfTick }
{}

/// Of a batch all lines are read, or the first that is refused is told. A law: the call does nothing.
pub fn first_is_refused()
    ensures { FirstIsRefused }
{}

/// Where no start of the program cuts the tick of the last moment, the events of a slot are numbered by tick. A law: the call does
/// nothing.
pub fn numbers_of_tick()
    ensures { NumbersOfTick }
{}
