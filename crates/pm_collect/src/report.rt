//! Whether a file is the report of a name.
ghost use Rattle.std.specs.Prelude.{◌≡◌, ◌≤◌, ◌⊎◌, length, Err, OnOk, IfErr};
ghost use Rattle.pm_collect.specs.Stored.{IsReportOf};

use crate::CollectError;
use pm_file::{Report, ReportError};
use std::alloc::Global;

/// Whether the text is a report of this name. `C3` where it isn't.
pub fn check_report(alloc: Global, name: &[u8], text: &[u8]) -> Result<(), CollectError>
    ensures is { OnOk result (IsReportOf name.now text.now) }
    ensures short { OnOk result (length name.now ≤ 255) }
    ensures refused { result ≡ Err CollectError.C3 → IsReportOf name.now text.now → ⊥ }
    ensures no_other { IfErr result (λ e. (e ≡ CollectError.C3) ⊎ (e ≡ CollectError.Memory)) }
{
    match Report::read(alloc, text) {
        Ok(report) => check_name(alloc, name, &report),
        Err(ReportError::Memory) => Err(CollectError::Memory),
        Err(_) => Err(CollectError::C3),
    }
}

ghost use Rattle.pm_name.specs.FileName.{IsFileName};
ghost use Rattle.pm_file.specs.Name.{report_name};
ghost use Rattle.pm_file.specs.Says.{content_of};

// Whether this is the name of the report.
fn check_name(alloc: Global, name: &[u8], report: &Report) -> Result<(), CollectError>
    ensures short { OnOk result (length name.now ≤ 255) }
    ensures is { OnOk result (IsFileName name.now (report_name (content_of report.now))) }
    ensures refused { result ≡ Err CollectError.C3 → IsFileName name.now (report_name (content_of report.now)) → ⊥ }
    ensures no_other { IfErr result (λ e. (e ≡ CollectError.C3) ⊎ (e ≡ CollectError.Memory)) }
{
    let Ok(own) = report.name(alloc) else {
        return Err(CollectError::Memory);
    };
    if name == own.as_bytes() {
        Ok(())
    } else {
        Err(CollectError::C3)
    }
}
