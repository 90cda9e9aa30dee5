//! Lists of reports that are due.

ghost use Rattle.std.specs.Prelude.{◌≡◌, ◌≤◌, ◌<◌, ◌++◌, ℕ, length, slice_index_or, option_to_list, OnOk};
ghost use Rattle.pm_close.specs.declared.due_report.DueReport.{DueReport};
ghost use Rattle.pm_close.specs.DueReports.{IsPutByEnd};

use crate::due_report::DueReport;
use std::alloc::AllocError;

/// One more, if there is one.
pub fn push_report(
    reports: &mut Vec<DueReport>,
    report: Option<DueReport>,
) -> Result<(), AllocError>
    ensures { OnOk result (reports.new.items ≡ reports.old.items ++ option_to_list report) }
{
    if let Some(report) = report {
        reports.push(report)?;
    }
    Ok(())
}

// The place of the first that ends later.
fn first_later(reports: &[DueReport], end: u64) -> usize
    ensures within { result ≤ length reports.now }
    ensures before { (k : ℕ) (d : DueReport) → k < result → (slice_index_or reports.now k d).end ≤ end }
    ensures later { (d : DueReport) → result < length reports.now → end < (slice_index_or reports.now result d).end }
{
    for k in 0..reports.len() {
        if end < reports[k].end {
            return k;
        }
    }
    reports.len()
}

/// One more, if there is one, after all that end no later.
pub fn put_report(reports: &mut Vec<DueReport>, report: Option<DueReport>) -> Result<(), AllocError>
    ensures { OnOk result (IsPutByEnd reports.old.items report reports.new.items) }
{
    if let Some(report) = report {
        let place = first_later(reports, report.end);
        reports.insert(place, report)?;
    }
    Ok(())
}
