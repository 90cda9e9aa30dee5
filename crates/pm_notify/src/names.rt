//! The names of what a crossing speaks of in numbers.
ghost use Rattle.std.specs.Prelude.{◌≡◌, ◌<◌, true, [], length, slice_index_or, option_copied, IfSome, Some};
ghost use Rattle.pm_form.specs.Names.{job_id, measure_name};
ghost use Rattle.pm_file.specs.Numbers.{metric_text};
ghost use Rattle.pm_file.specs.ReportForm.{object_name};
ghost use Rattle.pm_jobs.specs.State.{ids};

use pm_form::is_job_id;
use pm_inventory::Inventory;
use pm_jobs::{Jobs, Side};

/// The id of the monitor at a place in byte order of id; none where no monitor stands there.
pub(crate) fn monitor_id(jobs: &Jobs, place: u8) -> Option<&[u8]>
    ensures named { IfSome result (λ id. job_id id.now ≡ true) }
    ensures there { job_id (slice_index_or (ids jobs.now.monitors) place []) ≡ true → option_copied result ≡ Some (slice_index_or (ids jobs.now.monitors) place []) }
{
    if place >= jobs.count(Side::Monitor) {
        return None;
    }
    let id = jobs.at(Side::Monitor, place).id.as_bytes();
    if is_job_id(id) { Some(id) } else { None }
}

/// The distinguished name of an object; none of a number that no object has.
pub(crate) fn object_text(inventory: &Inventory, object: u16) -> Option<&[u8]>
    ensures named { IfSome result (λ name. object_name name.now ≡ true) }
    ensures there { object < length inventory.now.objects → option_copied result ≡ Some (slice_index_or inventory.now.objects object []) }
{
    let tree = inventory.tree();
    if object < tree.len() {
        Some(tree.text(object))
    } else {
        None
    }
}

/// The name of a metric; none of a number that no metric has.
pub(crate) fn metric_name(inventory: &Inventory, metric: u8) -> Option<&[u8]>
    ensures named { IfSome result (λ name. measure_name name.now ≡ true) }
    ensures there { metric < length inventory.now.measures → option_copied result ≡ Some (metric_text inventory.now metric) }
{
    let catalogue = inventory.catalogue();
    if metric < catalogue.len() {
        Some(catalogue.def(metric).name.as_bytes())
    } else {
        None
    }
}
