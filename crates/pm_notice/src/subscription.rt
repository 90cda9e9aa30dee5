//! Subscriptions, and what is asked of them.

use pm_base::Text;

/// Where the notices of a consumer go, and up to which one it has been served.
#[derive(Debug, Drop)]
pub struct Subscription {
    pub id: Text,
    /// The port of this host.
    pub port: u16,
    pub path: Text,
    /// The number of the first notice that is still to be posted or passed.
    pub cursor: u64,
}

/// A change that is asked for.
#[derive(Clone, Copy, Debug)]
pub enum SubAsk<'a> {
    /// A subscription under this id, as the body says. A new one begins at the cursor.
    Make {
        id: &'a [u8],
        body: &'a [u8],
        cursor: u64,
    },
    Remove {
        id: &'a [u8],
    },
}

/// A change that no rule refuses.
#[derive(Debug, Drop)]
pub enum SubPlan {
    New { made: Subscription },
    /// The subscription exists as it is asked for.
    Same,
    /// The subscription at this place goes.
    Deleted { place: u8 },
}

/// What was done.
#[derive(Clone, Copy, Debug, PartialEq, Eq)]
pub enum Outcome {
    New,
    Same,
    Deleted,
}
