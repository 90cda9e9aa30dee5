//! The files of reports that are due.
ghost use Rattle.std.specs.Prelude.{◌≡◌, ◌<◌, ◌∷◌, ◌++◌, [], List, length, map, option_to_list, IfOk, OnOk, Contains};
ghost use Rattle.std.specs.List.{AllByRecursion};
ghost use Rattle.pm_history.specs.declared.entry.Side.TheVariants.{Job};
ghost use Rattle.pm_history.specs.History.{History, IsHistory};
ghost use Rattle.pm_history.specs.Files.{Report, files_of};
ghost use Rattle.pm_asked.specs.Asked.{terms_of};
ghost use Rattle.pm_jobs.specs.Stands.{Keeps};
ghost use Rattle.pm_jobs.specs.declared.standing.Standing.{Standing};
ghost use Rattle.pm_close.specs.declared.open_job.OpenJob.{OpenJob};
ghost use Rattle.pm_close.specs.Closer.{ArePaired};
ghost use Rattle.pm_close.specs.DueReports.{AreAmong, AreFiles, file_among};
ghost use Rattle.pm_ready.specs.Due.{GivesFiles};
ghost use Rattle.pm_ready.specs.Files.{AreFilesOf, file_of};

use pm_close::{Closer, DueReport};
use pm_history::Side;
use pm_inventory::Inventory;
use pm_jobs::Jobs;
use pm_ready::{ReadyFile, report_file};
use std::alloc::{AllocError, Global};

// The file of a report that is due; none where it isn't whole.
fn due_file(
    alloc: Global,
    inventory: &Inventory,
    jobs: &Jobs,
    closer: &Closer,
    report: &DueReport,
) -> Result<Option<ReadyFile>, AllocError>
    requires among { report.now.job < length jobs.now.jobs }
    requires paired { ArePaired jobs.now closer.now }
    ensures { (h : History) (s : Standing) (job : OpenJob) → IsHistory h → AllByRecursion (Keeps inventory.now Job) jobs.now.jobs
        → Contains (files_of (terms_of inventory.now) h) (file_among inventory.now jobs.now.jobs closer.now.jobs.jobs.items s job report.now)
        → GivesFiles inventory.now (file_among inventory.now jobs.now.jobs closer.now.jobs.jobs.items s job report.now ∷ []) result }
{
    let job = jobs.at(Side::Job, report.job);
    let earlier = closer.earlier(report);
    report_file(
        alloc,
        inventory,
        job,
        report.due.begin,
        earlier,
        &report.due.parts,
    )
}

// One more, if there is one.
fn push_file(files: &mut Vec<ReadyFile>, file: Option<ReadyFile>) -> Result<(), AllocError>
    ensures { OnOk result (map file_of files.new.items ≡ map file_of files.old.items ++ map file_of (option_to_list file)) }
{
    if let Some(file) = file {
        files.push(file)?;
    }
    Ok(())
}

/// The files of reports that are due, in their order, where these are the last reports of a history.
pub fn due_files(
    alloc: Global,
    inventory: &Inventory,
    jobs: &Jobs,
    closer: &Closer,
    reports: &[DueReport],
) -> Result<Vec<ReadyFile>, AllocError>
    requires among { AreAmong (length jobs.now.jobs) reports.now }
    requires paired { ArePaired jobs.now closer.now }
    ensures { (h : History) (before added : List Report) → IsHistory h → AllByRecursion (Keeps inventory.now Job) jobs.now.jobs
        → files_of (terms_of inventory.now) h ≡ before ++ added
        → AreFiles inventory.now jobs.now.jobs closer.now.jobs.jobs.items added reports.now
        → IfOk result (λ files. AreFilesOf inventory.now added (map file_of files.items)) }
{
    let mut files = Vec::new(alloc);
    for report in reports {
        let file = due_file(alloc, inventory, jobs, closer, report)?;
        push_file(&mut files, file)?;
    }
    Ok(files)
}
