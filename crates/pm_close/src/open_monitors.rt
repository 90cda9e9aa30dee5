//! What is kept of the monitors that stand.

ghost use Rattle.std.specs.Prelude.{◌≡◌, ◌≤◌, ◌<◌, ◌+◌, ℕ, List, [], length, Option, Some};

use crate::marks::Marks;
use crate::monitor::OpenMonitor;
use crate::watches::Watches;
use arrayvec::ArrayVec;
use pm_jobs::MOST_STANDING;
use std::alloc::Global;
use std::default::MadeWith;

/// What is kept of a monitor that stands: its granularity period, in ticks, with its marks and its watches.
#[derive(Drop)]
pub struct KeptMonitor {
    pub granularity: u64,
    pub open: OpenMonitor,
}

// What lies in the places that are not taken.
impl MadeWith<Global> for KeptMonitor {
    fn made_with(alloc: Global) -> KeptMonitor {
        KeptMonitor {
            granularity: 1,
            open: OpenMonitor {
                marks: Marks::unmarked(1, 0),
                watches: Watches {
                    metrics: Vec::new(alloc),
                },
            },
        }
    }
}

/// What is kept of the monitors that stand, in byte order of id: beside each that pm_jobs keeps, at the same place.
#[derive(Drop)]
pub struct OpenMonitors {
    pub(crate) monitors: ArrayVec<KeptMonitor, MOST_STANDING, Global>,
}

impl OpenMonitors {
    /// None. It takes no memory.
    pub fn new(alloc: Global) -> OpenMonitors
        ensures none { result.monitors.items ≡ [] }
    {
        OpenMonitors {
            monitors: ArrayVec::new_in(alloc),
        }
    }
}
