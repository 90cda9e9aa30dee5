//! What a body adds to the load, and which of its metrics have measured objects.
ghost use Rattle.std.specs.Prelude.{◌≡◌, ◌<◌, ◌≤◌, ◌*◌, length};
ghost use Rattle.std.specs.List.{list_any, list_all};
ghost use Rattle.pm_asked.specs.Asked.{is_of_class, measured_objects, pairs, objects_measured, load};
ghost use Rattle.pm_jobs.specs.Rules.{is_measured};
ghost use Rattle.pm_jobs.specs.Numbered.{numbered, AreBelow};

use pm_base::Class;
use pm_inventory::{Inventory, has_class};

fn count_measured(inventory: &Inventory, objects: &[u16], class: Class) -> u64
    requires objects { AreBelow (length inventory.now.objects) objects.now }
    requires few { length objects.now ≤ 256 }
    ensures count { result ≡ length (measured_objects inventory.now objects.now class) }
    ensures most { result ≤ 256 }
{
    let tree = inventory.tree();
    let mut count = 0;
    for object in objects {
        if has_class(tree, *object, class) {
            count += 1;
        }
    }
    count
}

/// Whether each of these metrics has an object of its class among these.
pub(crate) fn are_measured(inventory: &Inventory, metrics: &[u8], objects: &[u16]) -> bool
    requires metrics { AreBelow (length inventory.now.measures) metrics.now }
    requires objects { AreBelow (length inventory.now.objects) objects.now }
    requires few { length objects.now ≤ 256 }
    ensures { result ≡ list_all (is_measured inventory.now objects.now) (numbered inventory.now metrics.now) }
{
    let catalogue = inventory.catalogue();
    for metric in metrics {
        if count_measured(inventory, objects, catalogue.def(*metric).class) == 0 {
            return false;
        }
    }
    true
}

fn count_pairs(inventory: &Inventory, metrics: &[u8], objects: &[u16]) -> u64
    requires metrics { AreBelow (length inventory.now.measures) metrics.now }
    requires objects { AreBelow (length inventory.now.objects) objects.now }
    requires few_metrics { length metrics.now ≤ 64 }
    requires few { length objects.now ≤ 256 }
    ensures count { result ≡ pairs inventory.now (numbered inventory.now metrics.now) objects.now }
    ensures most { result ≤ 16384 }
{
    let catalogue = inventory.catalogue();
    let mut count = 0;
    for metric in metrics {
        count += count_measured(inventory, objects, catalogue.def(*metric).class);
    }
    count
}

// Whether some of these metrics measures an object.
fn is_measured(inventory: &Inventory, metrics: &[u8], object: u16) -> bool
    requires metrics { AreBelow (length inventory.now.measures) metrics.now }
    requires object { object < length inventory.now.objects }
    ensures { result ≡ list_any (λ metric. is_of_class inventory.now metric.1.class object) (numbered inventory.now metrics.now) }
{
    let catalogue = inventory.catalogue();
    for metric in metrics {
        if has_class(inventory.tree(), object, catalogue.def(*metric).class) {
            return true;
        }
    }
    false
}

fn count_objects(inventory: &Inventory, metrics: &[u8], objects: &[u16]) -> u64
    requires metrics { AreBelow (length inventory.now.measures) metrics.now }
    requires objects { AreBelow (length inventory.now.objects) objects.now }
    requires few { length objects.now ≤ 256 }
    ensures count { result ≡ length (objects_measured inventory.now (numbered inventory.now metrics.now) objects.now) }
    ensures most { result ≤ 256 }
{
    let mut count = 0;
    for object in objects {
        if is_measured(inventory, metrics, *object) {
            count += 1;
        }
    }
    count
}

/// The load of these metrics and objects, by a granularity period in seconds.
pub(crate) fn load(inventory: &Inventory, granularity: u32, metrics: &[u8], objects: &[u16]) -> u64
    requires period { 0 < granularity }
    requires metrics { AreBelow (length inventory.now.measures) metrics.now }
    requires objects { AreBelow (length inventory.now.objects) objects.now }
    requires few_metrics { length metrics.now ≤ 64 }
    requires few { length objects.now ≤ 256 }
    ensures load { result ≡ load inventory.now granularity (numbered inventory.now metrics.now) objects.now }
    ensures most { result ≤ 20480 * 86400 }
{
    let each = 16 * count_objects(inventory, metrics, objects)
        + count_pairs(inventory, metrics, objects);
    each * (86_400 / u64::from(granularity))
}
