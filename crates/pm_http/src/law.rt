//! What holds of every stream.
ghost use Rattle.pm_http.specs.StreamLaw.{OneNext, OneStep};

/// Bytes go on in one way, but where those that are looked at end inside a target. A law: the call does nothing.
pub fn one_next()
    ensures { OneNext }
{}

/// The stream of requests goes on with what is left after its first one, unless that closes. A law: the call does nothing.
pub fn one_step()
    ensures { OneStep }
{}
