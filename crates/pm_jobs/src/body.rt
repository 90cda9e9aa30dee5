//! The bodies of jobs and monitors: attributes of PerfMetricJob and ThresholdMonitor of TS 28.622.

/// The administrative state.
#[derive(Clone, Copy, Debug, PartialEq, Eq)]
pub enum State {
    Locked,
    Unlocked,
}

/// Which crossings are kept.
#[derive(Clone, Copy, Debug, PartialEq, Eq)]
pub enum Directions {
    Up,
    Down,
    UpAndDown,
}

/// What a job's body says, as given and in order.
#[derive(Drop)]
pub struct JobBody {
    pub state: State,
    /// The granularity period, in seconds.
    pub granularity: u32,
    /// The distinguished names of single objects.
    pub objects: Vec<String>,
    /// The names of measurements, or their families.
    pub metrics: Vec<String>,
    /// The reporting period, in minutes.
    pub reporting: u32,
    /// The distinguished names of objects whose subtrees are measured.
    pub roots: Vec<String>,
}

/// One threshold of a monitor.
#[derive(Drop)]
pub struct Threshold {
    /// The names of measurements, or their families.
    pub metrics: Vec<String>,
    pub directions: Directions,
    pub value: u64,
    /// At most the value.
    pub hysteresis: u64,
}

/// What a monitor's body says, as given and in order.
#[derive(Drop)]
pub struct MonitorBody {
    pub state: State,
    /// The granularity period, in seconds.
    pub granularity: u32,
    /// The distinguished names of single objects.
    pub objects: Vec<String>,
    /// The distinguished names of objects whose subtrees are watched.
    pub roots: Vec<String>,
    pub thresholds: Vec<Threshold>,
}
