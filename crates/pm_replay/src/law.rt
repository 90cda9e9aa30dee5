//! What holds of stored items that may come next.
ghost use Rattle.pm_replay.specs.Laws.{AllowedAsPermitted};

/// An item may come next, by the jobs and monitors of a history and its last moment, exactly where the items of that history permit
/// it. A law: the call does nothing.
pub fn allowed_as_permitted()
    ensures { AllowedAsPermitted }
{}
