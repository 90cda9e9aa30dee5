//! The entries of a history: what happened to a producer, one by one.
ghost use Rattle.std.specs.Prelude.{◌≡◌, ◌↔◌, IsTrue};
ghost use Rattle.pm_history.specs.Entry.{moment_of, value_of, is_opening};
ghost use Rattle.pm_history.specs.History.{History, MayFollow, EndsAt};

use pm_base::{Blob, LAST_MOMENT, Text};
use pm_meas::MAX_VALUE;

/// Jobs and monitors, the two kinds of managed object that a consumer makes: PerfMetricJob and ThresholdMonitor of TS 28.622.
#[derive(Clone, Copy, Debug, PartialEq, Eq)]
pub enum Side {
    Job,
    Monitor,
}

/// One thing that happened. Moments are seconds since 1970-01-01 00:00 UTC. Objects and metrics are numbers of the inventory:
/// places in tree order and in catalogue order. A body is the canonical text of what was asked for.
#[derive(Debug, Drop)]
pub enum Entry {
    /// The program was started, or had heard nothing for over a day: its counts before are not vouched for.
    Boot {
        moment: u64,
    },
    /// A request came.
    Now {
        moment: u64,
    },
    /// A value of a metric on an object. Those that aren't registered count nowhere.
    Event {
        moment: u64,
        object: u16,
        metric: u8,
        value: u32,
        registered: bool,
    },
    JobMade {
        moment: u64,
        id: Text,
        body: Blob,
    },
    /// A job was set to UNLOCKED, or to LOCKED.
    JobState {
        moment: u64,
        id: Text,
        unlocked: bool,
    },
    JobDeleted {
        moment: u64,
        id: Text,
    },
    MonitorMade {
        moment: u64,
        id: Text,
        body: Blob,
    },
    /// A monitor was set to UNLOCKED, or to LOCKED.
    MonitorState {
        moment: u64,
        id: Text,
        unlocked: bool,
    },
    MonitorDeleted {
        moment: u64,
        id: Text,
    },
    /// A consumer asked for notices, at a port of this host and a path.
    Subscribed {
        moment: u64,
        id: Text,
        port: u16,
        path: Text,
    },
    Unsubscribed {
        moment: u64,
        id: Text,
    },
}

impl Entry {
    /// When it happened.
    pub fn moment(&self) -> u64
        ensures { result ≡ moment_of self.now }
    {
        match self {
            Entry::Boot { moment }
            | Entry::Now { moment }
            | Entry::Event { moment, .. }
            | Entry::JobMade { moment, .. }
            | Entry::JobState { moment, .. }
            | Entry::JobDeleted { moment, .. }
            | Entry::MonitorMade { moment, .. }
            | Entry::MonitorState { moment, .. }
            | Entry::MonitorDeleted { moment, .. }
            | Entry::Subscribed { moment, .. }
            | Entry::Unsubscribed { moment, .. } => *moment,
        }
    }

    // The value of an event; 0 of any other entry.
    fn value(&self) -> u32
        ensures { result ≡ value_of self.now }
    {
        match self {
            Entry::Event { value, .. } => *value,
            _ => 0,
        }
    }

    // Whether it may come after an entry of an earlier moment.
    fn is_opening(&self) -> bool
        ensures { result ≡ is_opening self.now }
    {
        match self {
            Entry::Boot { .. } | Entry::Now { .. } => true,
            _ => false,
        }
    }

    /// Whether it may come next after a history whose last entry has this moment; none where the history has no entry.
    pub fn may_follow(&self, last: Option<u64>) -> bool
        ensures { (h : History) → EndsAt h last → (IsTrue result ↔ MayFollow h self.now) }
    {
        let moment = self.moment();
        if moment > LAST_MOMENT || self.value() > MAX_VALUE {
            return false;
        }
        match last {
            Some(last) if last == moment => true,
            Some(last) if last > moment => false,
            _ => self.is_opening(),
        }
    }
}
