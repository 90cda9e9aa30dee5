//! The file of a whole report.
ghost use Rattle.std.specs.Prelude.{◌++◌, [], ◌∷◌};
ghost use Rattle.pm_history.specs.declared.entry.Side.TheVariants.{Job};
ghost use Rattle.pm_asked.specs.Asked.{terms_of};
ghost use Rattle.pm_jobs.specs.Stands.{Keeps};
ghost use Rattle.pm_ready.specs.Due.{job_report, GivesFiles};
ghost use Rattle.pm_ready.specs.Whole.{IsWhole};

use crate::ReadyFile;
use crate::numbered::numbered;
use crate::shape::Shape;
use crate::whole::{is_whole, read_values};
use crate::written::written;
use pm_close::PartValues;
use pm_inventory::Inventory;
use pm_jobs::Standing;
use std::alloc::{AllocError, Global};

/// The file of a job's report that begins with this tick, by the values of its parts, of which some are kept elsewhere. None
/// of what is no whole report.
pub(crate) fn whole_file(
    alloc: Global,
    inventory: &Inventory,
    job: &Standing,
    begin: u64,
    earlier: &[PartValues],
    parts: &[PartValues],
) -> Result<Option<ReadyFile>, AllocError>
    ensures { Keeps inventory.now Job job.now → IsWhole (terms_of inventory.now Job job.now.body) begin (earlier.now ++ parts.now) → GivesFiles inventory.now (job_report inventory.now job.now begin (earlier.now ++ parts.now) ∷ []) result }
{
    let Some(shape) = Shape::of(alloc, inventory, job)? else {
        return Ok(None);
    };
    if !is_whole(&shape, begin, earlier, parts) {
        return Ok(None);
    }
    read_values(earlier);
    read_values(parts);
    let report = numbered(alloc, &job.id, &shape, begin, earlier, parts)?;
    Ok(Some(written(alloc, inventory, report)?))
}
