//! The kinds of resources.

/// What a path names.
#[derive(Clone, Copy, Debug, PartialEq, Eq)]
pub enum Kind {
    Job,
    Monitor,
    Subscription,
    Files,
    File,
    Events,
}
