//! What holds of every history, whatever its bodies ask for.
ghost use Rattle.pm_history.specs.Conserved.{SumsConserved};
ghost use Rattle.pm_history.specs.Laws.{CrossingsAgree, EndsInRange, FilesDistinct, FilesGrow, NoticesGrow, ValuesInRange};

/// An entry that may come next leaves the files as they are, and adds its own after them. A law: the call does nothing.
pub fn files_grow()
    ensures { FilesGrow }
{}

/// An entry that may come next leaves the notices as they are, and adds its own after them. A law: the call does nothing.
pub fn notices_grow()
    ensures { NoticesGrow }
{}

/// Of any two files of a history the ends or the ids differ. A law: the call does nothing.
pub fn files_distinct()
    ensures { FilesDistinct }
{}

/// The ends of the files of a history are moments, so each of them has a name. A law: the call does nothing.
pub fn ends_in_range()
    ensures { EndsInRange }
{}

/// The values of the events of a history are ones that a cell takes. A law: the call does nothing.
pub fn values_in_range()
    ensures { ValuesInRange }
{}

/// A crossing as the notices find it exists exactly where the definition on whole sequences has one. A law: the call does nothing.
pub fn crossings_agree()
    ensures { CrossingsAgree }
{}

/// The results of a counter in all files of a job add up to the events that are counted for it there. A law: the call does nothing.
pub fn sums_conserved()
    ensures { SumsConserved }
{}
