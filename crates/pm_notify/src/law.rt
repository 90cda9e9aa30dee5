//! What holds of kept notices over every history.
ghost use Rattle.pm_notify.specs.Laws.{KeptAreDue, NoticesStay, NoticesToldOnce};

/// An entry in the tick of the last moment leaves the notices that are kept. A law: the call does nothing.
pub fn notices_stay()
    ensures { NoticesStay }
{}

/// The kept notices have each one of the history that is due. A law: the call does nothing.
pub fn kept_are_due()
    ensures { KeptAreDue }
{}

/// One list of notices tells those of a history. A law: the call does nothing.
pub fn notices_are_told_once()
    ensures { NoticesToldOnce }
{}
