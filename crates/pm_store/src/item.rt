//! A stored item.
ghost use Rattle.std.specs.Prelude.{◌≡◌};
ghost use Rattle.pm_store.specs.Item.{moment_of, kind_of};

use crate::cells::Cells;
use crate::cursors::Cursors;
use pm_base::{Blob, Text};

/// The version of these formats.
pub const VERSION: u8 = 1;

/// What a store keeps of one entry of a history. Moments are seconds since 1970-01-01 00:00 UTC. A body is the canonical text of what
/// was asked for.
#[derive(Debug, Drop)]
pub enum Item1 {
    Boot {
        moment: u64,
        version: u8,
        inventory: Blob,
    },
    /// A Now in a later tick. The tick is that of the moment before, and the cells are its slots' with values.
    Booked {
        moment: u64,
        tick: u64,
        cells: Cells,
        cursors: Cursors,
    },
    JobMade {
        moment: u64,
        id: Text,
        body: Blob,
    },
    JobState {
        moment: u64,
        id: Text,
        unlocked: bool,
    },
    JobDeleted {
        moment: u64,
        id: Text,
    },
    MonitorMade {
        moment: u64,
        id: Text,
        body: Blob,
    },
    MonitorState {
        moment: u64,
        id: Text,
        unlocked: bool,
    },
    MonitorDeleted {
        moment: u64,
        id: Text,
    },
    Subscribed {
        moment: u64,
        id: Text,
        port: u16,
        path: Text,
    },
    Unsubscribed {
        moment: u64,
        id: Text,
    },
}

impl Item1 {
    /// When it happened.
    pub fn moment(&self) -> u64
        ensures { result ≡ moment_of self.now }
    {
        match self {
            Item1::Boot { moment, .. }
            | Item1::Booked { moment, .. }
            | Item1::JobMade { moment, .. }
            | Item1::JobState { moment, .. }
            | Item1::JobDeleted { moment, .. }
            | Item1::MonitorMade { moment, .. }
            | Item1::MonitorState { moment, .. }
            | Item1::MonitorDeleted { moment, .. }
            | Item1::Subscribed { moment, .. }
            | Item1::Unsubscribed { moment, .. } => *moment,
        }
    }

    // The number of its kind.
    pub(crate) fn kind(&self) -> u8
        ensures { result ≡ kind_of self.now }
    {
        match self {
            Item1::Boot { .. } => 1,
            Item1::Booked { .. } => 2,
            Item1::JobMade { .. } => 3,
            Item1::JobState { .. } => 4,
            Item1::JobDeleted { .. } => 5,
            Item1::MonitorMade { .. } => 6,
            Item1::MonitorState { .. } => 7,
            Item1::MonitorDeleted { .. } => 8,
            Item1::Subscribed { .. } => 9,
            Item1::Unsubscribed { .. } => 10,
        }
    }
}
