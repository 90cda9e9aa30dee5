//! A notice: its number, when its period ended, and its text.

use pm_base::{Blob, Text};

/// A notice of a file that became ready, or of a crossing of a threshold.
#[derive(Debug, Drop)]
pub struct Notice {
    /// Its place among all notices of the history, from 0.
    pub number: u64,
    /// The end of its period, a moment.
    pub end: u64,
    pub body: Blob,
}

/// A report file that is ready.
#[derive(Debug, Drop)]
pub struct FileInfo {
    /// A name of report files.
    pub name: Text,
    /// The length of the file in bytes.
    pub size: u64,
    /// The end of its reporting period, a moment.
    pub ready: u64,
}

/// A crossing of a threshold.
#[derive(Debug, Drop)]
pub struct Crossed {
    /// The end of its granularity period, a moment.
    pub end: u64,
    /// As it was given, whatever the kind of the metric.
    pub hysteresis: u64,
    /// The id of the monitor.
    pub monitor: Text,
    /// The distinguished name of the object.
    pub object: Text,
    pub value: u64,
    pub metric: Text,
    /// Whether it is upward.
    pub up: bool,
    pub threshold: u64,
}
