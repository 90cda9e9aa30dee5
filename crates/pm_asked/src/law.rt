//! What holds of every body.
ghost use Rattle.pm_asked.specs.BodyReading.{BodiesAreText, BodiesReadBack};

/// The tree of a body within its ranges says that body. A law: the call does nothing.
pub fn bodies_read_back()
    ensures { BodiesReadBack }
{}

/// Only a text in UTF-8 says a body. A law: the call does nothing.
pub fn bodies_are_text()
    ensures { BodiesAreText }
{}
