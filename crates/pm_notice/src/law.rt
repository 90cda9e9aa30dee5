//! What holds of all subscriptions and notices.
ghost use Rattle.pm_notice.specs.Laws.{AreExact, TellsFileNames};
ghost use Rattle.pm_notice.specs.Rounds.{AreAllRounds};
ghost use Rattle.pm_notice.specs.StandFor.{OthersStay};

/// A tree says a notice or a listing exactly where it is the tree of what it says. A law: the call does nothing.
pub fn notices_are_exact()
    ensures { AreExact }
{}

/// Subscriptions stand on for a history whose next entry is of something else. A law: the call does nothing.
pub fn others_stay()
    ensures { OthersStay }
{}

/// Where the notices that are handed to rounds have each one that is due from the least cursor on, in order, the rounds are
/// those over all notices. A law: the call does nothing.
pub fn rounds_are_over_all()
    ensures { AreAllRounds }
{}

/// The test by which notices and listings name files holds exactly of file names. A law: the call does nothing.
pub fn file_names_are_told()
    ensures { TellsFileNames }
{}
