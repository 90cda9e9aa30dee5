//! Whether watches may be stepped.

ghost use Rattle.std.specs.Prelude.{◌↔◌, ◌<◌, IsTrue};
ghost use Rattle.pm_close.specs.Watched.{AllWithin, SlotsWithin};

use crate::watched::WatchedObject;
use crate::watches::MetricWatches;

fn objects_within(slots: usize, objects: &[WatchedObject]) -> bool
    ensures { IsTrue result ↔ SlotsWithin slots objects.now }
{
    objects.iter().all(|o| (o.slot as usize) < slots)
}

/// Whether the slot of each watched object is one of so many.
pub fn slots_within(slots: usize, metrics: &[MetricWatches]) -> bool
    ensures { IsTrue result ↔ AllWithin slots metrics.now }
{
    metrics.iter().all(|m| objects_within(slots, &m.objects))
}
