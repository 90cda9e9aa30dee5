//! The file of a job whose report is due.
ghost use Rattle.std.specs.Prelude.{◌≡◌, ◌*◌, ◌++◌, ℕ, [], ◌∷◌, Some, Contains};
ghost use Rattle.pm_base.specs.Moment.{IsMoment};
ghost use Rattle.pm_history.specs.declared.entry.Side.TheVariants.{Job};
ghost use Rattle.pm_history.specs.History.{History, IsHistory};
ghost use Rattle.pm_history.specs.Standing as history;
ghost use Rattle.pm_history.specs.Files.{file_of, files_of};
ghost use Rattle.pm_asked.specs.Asked.{terms_of};
ghost use Rattle.pm_jobs.specs.Stands.{Keeps};
ghost use Rattle.pm_close.specs.Reports.{DueStands};
ghost use Rattle.pm_ready.specs.Due.{job_report, GivesFiles};

use crate::ReadyFile;
use crate::file::whole_file;
use pm_close::{Due, PartValues};
use pm_inventory::Inventory;
use pm_jobs::Standing;
use std::alloc::{AllocError, Global};

/// The file of a job's report that begins with this tick, by the values of its parts, of which some are kept elsewhere.
pub fn report_file(
    alloc: Global,
    inventory: &Inventory,
    job: &Standing,
    begin: u64,
    earlier: &[PartValues],
    parts: &[PartValues],
) -> Result<Option<ReadyFile>, AllocError>
    // There is one of each report that a history has.
    ensures { (h : History) → IsHistory h → Keeps inventory.now Job job.now
        → Contains (files_of (terms_of inventory.now) h) (job_report inventory.now job.now begin (earlier.now ++ parts.now))
        → GivesFiles inventory.now (job_report inventory.now job.now begin (earlier.now ++ parts.now) ∷ []) result }
{
    whole_file(alloc, inventory, job, begin, earlier, parts)
}

/// The file of a job whose reporting period ended; none where no tick of the period is counted. Of its parts some ended
/// earlier and are kept elsewhere.
pub fn due_file(
    alloc: Global,
    inventory: &Inventory,
    job: &Standing,
    earlier: &[PartValues],
    due: &Due,
) -> Result<Option<ReadyFile>, AllocError>
    // It is the file that the history has of the job at this end, for each history for which the report stands.
    ensures { (h : History) (s : history.Standing) (end : ℕ)
        → Keeps inventory.now Job job.now → s.body ≡ job.now.body → IsMoment (60 * end)
        → DueStands (terms_of inventory.now) h (history.making_of Job job.now.id s) (terms_of inventory.now Job s.body) end earlier.now due.now
        → GivesFiles inventory.now (file_of (terms_of inventory.now) h job.now.id end (Some s)) result }
{
    if !due.counted {
        return Ok(None);
    }
    whole_file(alloc, inventory, job, due.begin, earlier, &due.parts)
}
