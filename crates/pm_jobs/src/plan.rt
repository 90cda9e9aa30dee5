//! What a request comes to, once it breaks no rule.
use crate::Standing;
use pm_history::Side;

/// What enacting a plan came to.
#[derive(Clone, Copy, Debug, PartialEq, Eq)]
pub enum Outcome {
    /// It was made.
    New,
    /// It stood, and was made with this content.
    Same,
    /// It has another state.
    Changed,
    /// It had this state.
    Already,
    /// It is gone.
    Deleted,
}

/// What a request comes to. A place is one in byte order of id. Moments are seconds since 1970-01-01 00:00 UTC.
#[derive(Drop)]
pub enum Plan {
    /// What is put in before this place.
    Make {
        side: Side,
        place: usize,
        standing: Standing,
    },
    /// What was asked for was made already, with the same content.
    Same,
    /// The other state of what stands at this place.
    Move {
        side: Side,
        place: usize,
        unlocked: bool,
        moment: u64,
    },
    /// The state that was asked for is the one that stands.
    Already,
    /// What stands at this place goes.
    Delete {
        side: Side,
        place: usize,
        moment: u64,
    },
}
