//! What holds of every session.
ghost use Rattle.pm_top.specs.SessionLaw.{TurnsStay, TurnsAreStream};

/// What was acknowledged stays: what is kept after a turn begins what is kept after later ones. A law: the call does nothing.
pub fn turns_stay()
    ensures { TurnsStay }
{}

/// The requests of turns are the first of the stream of the input. A law: the call does nothing.
pub fn turns_are_stream()
    ensures { TurnsAreStream }
{}
