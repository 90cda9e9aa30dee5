//! What holds of crossings on every sequence.
ghost use Rattle.pm_history.specs.Crossing.{NeverBoth, FlagsOfSequences};

/// At no place of a sequence do an upward and a downward crossing stand together. A law: the call does nothing.
pub fn never_both()
    ensures { NeverBoth }
{}

/// No sequence leaves the flags 3, nor 0 where `low` is less than `high`. A law: the call does nothing.
pub fn flags_of_sequences()
    ensures { FlagsOfSequences }
{}
