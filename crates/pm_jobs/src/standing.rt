//! What stands: the jobs and monitors that were made and are not deleted.
ghost use Rattle.std.specs.Prelude.{◌≡◌};

use pm_base::{Blob, Text};
use std::alloc::Global;
use std::default::MadeWith;

/// One threshold of a monitor, as given.
#[derive(Drop)]
pub struct Limit {
    /// The numbers of its metrics, in catalogue order.
    pub metrics: Vec<u8>,
    /// Whether crossings upward are kept.
    pub up: bool,
    /// Whether crossings downward are kept.
    pub down: bool,
    pub value: u64,
    /// At most the value.
    pub hysteresis: u64,
}

/// A job or a monitor that stands, and what its body asks for over the inventory.
#[derive(Drop)]
pub struct Standing {
    pub id: Text,
    /// The canonical body as made.
    pub body: Blob,
    /// Whether its state is UNLOCKED now.
    pub unlocked: bool,
    /// The moment of the last entry on it.
    pub changed: u64,
    /// The moment at which it was made or, if later, last set to UNLOCKED.
    pub armed: u64,
    /// The granularity period, in seconds.
    pub granularity: u32,
    /// The reporting period, in minutes; 0 of a monitor.
    pub reporting: u32,
    /// The numbers of its metrics, of a monitor those of all its thresholds, in catalogue order.
    pub metrics: Vec<u8>,
    /// The numbers of its objects, in tree order.
    pub objects: Vec<u16>,
    /// The thresholds of a monitor; none of a job.
    pub limits: Vec<Limit>,
    /// What it adds to the load.
    pub load: u64,
}

// What lies in the places that are not taken.
impl MadeWith<Global> for Standing {
    fn made_with(alloc: Global) -> Standing {
        Standing {
            id: Text::new(alloc),
            body: Blob::new(alloc),
            unlocked: false,
            changed: 0,
            armed: 0,
            granularity: 0,
            reporting: 0,
            metrics: Vec::new(alloc),
            objects: Vec::new(alloc),
            limits: Vec::new(alloc),
            load: 0,
        }
    }
}
