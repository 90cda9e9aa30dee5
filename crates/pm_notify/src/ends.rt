//! The notices of ends, one after the other.
ghost use Rattle.std.specs.Prelude.{◌≡◌, ◌+◌, ◌++◌, ◌<◌, ◌≤◌, ◌==◌, ◌^◌, List, length, map, drop, IfOk, OnOk};
ghost use Rattle.std.specs.List.{prefix_len};
ghost use Rattle.pm_history.specs.Files.{Report};
ghost use Rattle.pm_history.specs.History.{History};
ghost use Rattle.pm_history.specs.Notices as history;
ghost use Rattle.pm_history.specs.Ticks.{behind};
ghost use Rattle.pm_asked.specs.Asked.{terms_of};
ghost use Rattle.pm_ready.specs.declared.ready.ReadyFile.{ReadyFile};
ghost use Rattle.pm_ready.specs.Files.{AreFilesOf, file_of};
ghost use Rattle.pm_notify.specs.Notices.{AreNoticesFrom};
ghost use Rattle.pm_notify.specs.Ends.{IsEnd, AreEnds};

use crate::AddedNotices;
use pm_base::{LAST_MOMENT, TICK_SECONDS};
use pm_close::EndCrossings;
use pm_inventory::Inventory;
use pm_jobs::Jobs;
use pm_ready::ReadyFile;
use std::alloc::{AllocError, Global};

// How many files from the first one on are ready at this moment.
fn count_ready(files: &[ReadyFile], moment: u64) -> usize
    ensures { result ≡ prefix_len (λ (f : ReadyFile). f.info.ready == moment) files.now }
{
    files
        .iter()
        .take_while(|file| file.info.ready == moment)
        .count()
}

// The notices of the end of a tick: of the files at the front that are ready then, and of the crossings. It answers how many
// files these are.
fn add_end(
    added: &mut AddedNotices,
    alloc: Global,
    inventory: &Inventory,
    jobs: &Jobs,
    end: u64,
    files: &[ReadyFile],
    crossings: &EndCrossings,
) -> Result<usize, AllocError>
    ensures first { added.new.first ≡ added.old.first }
    ensures within { IfOk result (λ count. count ≤ length files.now) }
    ensures left { (h : History) (later : List Report) → IsEnd inventory.now jobs.now h end later files.now crossings.now
        → IfOk result (λ count. AreFilesOf inventory.now later (map file_of (drop count files.now))) }
    ensures told { (h : History) (later : List Report) (before : List history.Notice) → IsEnd inventory.now jobs.now h end later files.now crossings.now
        → AreNoticesFrom inventory.now added.old.first before added.old.notices.items
        → OnOk result (AreNoticesFrom inventory.now added.old.first (before ++ history.notices_at (terms_of inventory.now) h end) added.new.notices.items) }
{
    if end > LAST_MOMENT / TICK_SECONDS {
        return Ok(0);
    }
    let count = count_ready(files, TICK_SECONDS * end);
    added.add_files(alloc, inventory, &files[..count])?;
    added.add_crossings(alloc, inventory, jobs, end, &crossings.crossings)?;
    Ok(count)
}

/// The notices of the ends after the tick `from`, one for each of the crossings: at each end those of its files, then those of
/// its crossings.
pub(crate) fn notices_of_ends(
    alloc: Global,
    inventory: &Inventory,
    jobs: &Jobs,
    first: u64,
    from: u64,
    files: &[ReadyFile],
    crossings: &[EndCrossings],
) -> Result<AddedNotices, AllocError>
    requires { from < 2 ^ 57 }
    ensures first { IfOk result (λ added. added.first ≡ first) }
    ensures told { (h : History) → AreEnds inventory.now jobs.now h from files.now crossings.now
        → IfOk result (λ added. AreNoticesFrom inventory.now first (behind (history.notices_at (terms_of inventory.now) h) from (length crossings.now)) added.notices.items) }
{
    let mut added = AddedNotices::new(alloc, first);
    let mut next = 0;
    for k in 0..crossings.len() {
        let end = from + k as u64 + 1;
        next += add_end(
            &mut added,
            alloc,
            inventory,
            jobs,
            end,
            &files[next..],
            &crossings[k],
        )?;
    }
    Ok(added)
}

/// The notices that these files are ready.
pub(crate) fn notices_of_files(
    alloc: Global,
    inventory: &Inventory,
    first: u64,
    files: &[ReadyFile],
) -> Result<AddedNotices, AllocError>
    ensures first { IfOk result (λ added. added.first ≡ first) }
    ensures told { (reports : List Report) → AreFilesOf inventory.now reports (map file_of files.now)
        → IfOk result (λ added. AreNoticesFrom inventory.now first (map history.FileReady reports) added.notices.items) }
{
    let mut added = AddedNotices::new(alloc, first);
    added.add_files(alloc, inventory, files)?;
    Ok(added)
}
