//! What holds of the items of every history, whatever its bodies ask for.
ghost use Rattle.pm_items.specs.Unstored.{UnstoredChangesNothing, UnstoredInTick};
ghost use Rattle.pm_items.specs.Kept.{KeptBegins, KeptGrows, KeptIsKept, LastItem, PrefixesKept};
ghost use Rattle.pm_items.specs.Alike.{ItemsTell, SameItems};
ghost use Rattle.pm_items.specs.Sequences.{SameLastCut, SameSequences};
ghost use Rattle.pm_items.specs.Subscribed.{SameSubscriptions};
ghost use Rattle.pm_items.specs.Cursors.{BootsStoreNone, CursorsBounded, CursorsStay, SameCursors};
ghost use Rattle.pm_items.specs.Permitted.{SameAllPermitted, SamePermitted};
ghost use Rattle.pm_items.specs.Places.{PlacesUntold};

/// An entry without an item is a Now or an event, in the tick of the last moment. A law: the call does nothing.
pub fn unstored_in_tick()
    ensures { UnstoredInTick }
{}

/// Entries without an item change nothing of what a replay keeps. A law: the call does nothing.
pub fn unstored_changes_nothing()
    ensures { UnstoredChangesNothing }
{}

/// What is kept of what is kept is all of it, and has all items. A law: the call does nothing.
pub fn kept_is_kept()
    ensures { KeptIsKept }
{}

/// A history is what is kept of it, and entries without an item. A law: the call does nothing.
pub fn kept_begins()
    ensures { KeptBegins }
{}

/// Whatever comes next, what is kept only grows. A law: the call does nothing.
pub fn kept_grows()
    ensures { KeptGrows }
{}

/// Each prefix of the items is all items of a beginning of the history. A law: the call does nothing.
pub fn prefixes_kept()
    ensures { PrefixesKept }
{}

/// What comes before the entry of the last item. A law: the call does nothing.
pub fn last_item()
    ensures { LastItem }
{}

/// Histories with the same items are the same in all that a replay keeps, but for places. A law: the call does nothing.
pub fn same_items()
    ensures { SameItems }
{}

/// Histories with the same items have the same files and notices. A law: the call does nothing.
pub fn items_tell()
    ensures { ItemsTell }
{}

/// Items don't tell at which places jobs and monitors were made. A law: the call does nothing.
pub fn places_untold()
    ensures { PlacesUntold }
{}

/// Histories with the same items agree on whether the last tick is cut. A law: the call does nothing.
pub fn same_last_cut()
    ensures { SameLastCut }
{}

/// Histories with the same items have the same value sequences, so the same flags. A law: the call does nothing.
pub fn same_sequences()
    ensures { SameSequences }
{}

/// Histories with the same items have the same subscriptions. A law: the call does nothing.
pub fn same_subscriptions()
    ensures { SameSubscriptions }
{}

/// Histories with the same items have the same stored cursors. A law: the call does nothing.
pub fn same_cursors()
    ensures { SameCursors }
{}

/// The cursors of a Booked item change nothing of what was stored before it. A law: the call does nothing.
pub fn cursors_stay()
    ensures { CursorsStay }
{}

/// A Boot stores no cursors, whatever gap it ends. A law: the call does nothing.
pub fn boots_store_none()
    ensures { BootsStoreNone }
{}

/// A stored cursor is at most the number of notices. A law: the call does nothing.
pub fn cursors_bounded()
    ensures { CursorsBounded }
{}

/// Histories that end with an item and have the same items permit the same items. A law: the call does nothing.
pub fn same_permitted()
    ensures { SamePermitted }
{}

/// Where each item of a history is permitted, each item of one with the same items is. A law: the call does nothing.
pub fn same_all_permitted()
    ensures { SameAllPermitted }
{}
