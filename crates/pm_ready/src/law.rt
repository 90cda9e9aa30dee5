//! What holds of kept files over every history.
ghost use Rattle.pm_ready.specs.Laws.{FilesStay, NamesDistinct};

/// An entry in the tick of the last moment leaves the files that are kept. A law: the call does nothing.
pub fn files_stay()
    ensures { FilesStay }
{}

/// No two reports of a history have files of one name. A law: the call does nothing.
pub fn file_names_are_distinct()
    ensures { NamesDistinct }
{}
