//! A report, written into its file.
ghost use Rattle.std.specs.Prelude.{◌≡◌, true, IfOk};
ghost use Rattle.pm_file.specs.Numbered.{report_of};
ghost use Rattle.pm_file.specs.Permitted.{is_permitted};
ghost use Rattle.pm_file.specs.Says.{content_of};
ghost use Rattle.pm_ready.specs.Files.{said_by, file_of, Says, IsFileOf};

use crate::ReadyFile;
use crate::element::managed_element;
use pm_base::Text;
use pm_file::{NumberedReport, Report};
use pm_inventory::Inventory;
use pm_notice::FileInfo;
use std::alloc::{AllocError, Global};

fn file_of(alloc: Global, report: &Report) -> Result<ReadyFile, AllocError>
    ensures { IfOk result (λ file. Says (content_of report.now) (file_of file)) }
{
    let name = report.name(alloc)?;
    let text = report.to_bytes(alloc)?;
    let size = text.len() as u64;
    Ok(ReadyFile {
        info: FileInfo {
            name,
            size,
            ready: report.end,
        },
        text,
    })
}

/// The file of a report, which the ManagedElement sends.
pub(crate) fn written(
    alloc: Global,
    inventory: &Inventory,
    report: NumberedReport,
) -> Result<ReadyFile, AllocError>
    requires { is_permitted (said_by inventory.now (report_of report)) ≡ true }
    ensures { IfOk result (λ file. IsFileOf inventory.now (report_of report) (file_of file)) }
{
    let sender = Text::from_slice(alloc, managed_element(inventory))?;
    let report = Report::in_texts(alloc, inventory, sender, report)?;
    file_of(alloc, &report)
}
