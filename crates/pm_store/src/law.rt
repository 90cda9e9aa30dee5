//! What holds of all stored items.
ghost use Rattle.pm_store.specs.Laws.{CursorsOfEach, OneItem};

/// Two items with the same bytes are one. A law: the call does nothing.
pub fn one_item()
    ensures { OneItem }
{}

/// Stored items have a list of cursors for each Booked among the items that they are. A law: the call does nothing.
pub fn cursors_of_each()
    ensures { CursorsOfEach }
{}
