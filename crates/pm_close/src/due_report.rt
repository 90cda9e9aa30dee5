//! The reports that are due once ticks end.

ghost use Rattle.std.specs.Prelude.{◌≡◌, Some};

use crate::report::Due;

/// A report that is due and has a file: of the job at this place, up to the tick `end`, which is left out. Some of its
/// parts, so many, are kept of the job.
#[derive(Drop)]
pub struct DueReport {
    pub job: u8,
    pub end: u64,
    pub earlier: usize,
    pub due: Due,
}

impl DueReport {
    ghost use Rattle.pm_close.specs.DueReports.{due_of};

    // None where no tick of the report is counted.
    pub(crate) fn of(job: u8, end: u64, earlier: usize, due: Option<Due>) -> Option<DueReport>
        ensures { result ≡ due_of job end earlier due }
    {
        match due {
            Some(due) => DueReport::counted(job, end, earlier, due),
            None => None,
        }
    }

    fn counted(job: u8, end: u64, earlier: usize, due: Due) -> Option<DueReport>
        ensures { result ≡ due_of job end earlier (Some due) }
    {
        if due.counted {
            Some(DueReport {
                job,
                end,
                earlier,
                due,
            })
        } else {
            None
        }
    }
}
