//! The notices that an entry adds.
ghost use Rattle.std.specs.Prelude.{◌≡◌, ◌+◌, ◌++◌, ◌<◌, ◌≤◌, ◌∷◌, [], true, List, length, map, OnOk, IfSome};
ghost use Rattle.pm_inventory.specs.Inventory.{InventoryState};
ghost use Rattle.pm_history.specs.Files.{Report};
ghost use Rattle.pm_history.specs.Notices as history;
ghost use Rattle.pm_file.specs.ReportForm.{object_name};
ghost use Rattle.pm_jobs.specs.State.{ids};
ghost use Rattle.pm_close.specs.MonitorPlans.{told_as, all_told};
ghost use Rattle.pm_ready.specs.Files.{AreFilesOf, IsFileOf, element_of, file_of};
ghost use Rattle.pm_notify.specs.Notices.{AreNoticesFrom};
ghost use Rattle.pm_notify.specs.Numbered.{AreNumbered};
ghost use Rattle.pm_notify.specs.Tellable.{IsTellable};
ghost use Rattle.std.specs.List.{AllByRecursion};

use crate::crossing::crossed_at;
use pm_close::MonitorCrossing;
use pm_inventory::Inventory;
use pm_jobs::Jobs;
use pm_notice::{Notice, crossing_notice, file_notice};
use pm_ready::{ReadyFile, managed_element};
use std::alloc::{AllocError, Global};

/// The notices that an entry adds, numbered on from those of the history before it.
#[derive(Drop)]
pub struct AddedNotices {
    pub(crate) first: u64,
    pub(crate) notices: Vec<Notice>,
    ghost numbered: { AreNumbered first notices.items },
    ghost in_range: { first + length notices.items ≤ 18446744073709551615 },
}

impl AddedNotices {
    /// None, behind so many. It takes no memory.
    pub(crate) fn new(alloc: Global, first: u64) -> AddedNotices
        ensures first { result.first ≡ first }
        ensures none { result.notices.items ≡ [] }
    {
        AddedNotices {
            first,
            notices: Vec::new(alloc),
        }
    }

    /// The notices, in order.
    pub fn as_slice(&self) -> &[Notice]
        ensures { result.now ≡ self.now.notices.items }
    {
        &self.notices
    }

    // The number of the next one; none where it would be the last that there is.
    fn next(&self) -> Option<u64>
        ensures { IfSome result (λ n. (n ≡ self.now.first + length self.now.notices.items) × (n < 18446744073709551615)) }
    {
        let number = self.first + self.notices.len() as u64;
        if number < u64::MAX {
            Some(number)
        } else {
            None
        }
    }

    fn add(&mut self, notice: Notice) -> Result<(), AllocError>
        requires next { notice.number ≡ self.old.first + length self.old.notices.items }
        requires in_range { notice.number < 18446744073709551615 }
        ensures first { self.new.first ≡ self.old.first }
        ensures added { OnOk result (self.new.notices.items ≡ self.old.notices.items ++ notice ∷ []) }
    {
        self.notices.push(notice)?;
        Ok(())
    }

    fn add_file(
        &mut self,
        alloc: Global,
        file: &ReadyFile,
        element: &[u8],
    ) -> Result<(), AllocError>
        requires { object_name element.now ≡ true }
        ensures first { self.new.first ≡ self.old.first }
        ensures told { (inventory : InventoryState) (before : List history.Notice) (report : Report) → element.now ≡ element_of inventory
            → AreNoticesFrom inventory self.old.first before self.old.notices.items → IsFileOf inventory report (file_of file.now)
            → OnOk result (AreNoticesFrom inventory self.old.first (before ++ history.FileReady report ∷ []) self.new.notices.items) }
    {
        let Some(number) = self.next() else {
            return Err(AllocError);
        };
        // The range of what stands behind a reference is known once it is read.
        let _size = file.info.size;
        let notice = file_notice(alloc, number, &file.info, element)?;
        self.add(notice)?;
        Ok(())
    }

    fn add_crossing(
        &mut self,
        alloc: Global,
        inventory: &Inventory,
        jobs: &Jobs,
        end: u64,
        crossing: &MonitorCrossing,
    ) -> Result<(), AllocError>
        requires { end ≤ 4223371679 }
        ensures first { self.new.first ≡ self.old.first }
        ensures told { (before : List history.Notice) → AreNoticesFrom inventory.now self.old.first before self.old.notices.items
            → IsTellable inventory.now (told_as (ids jobs.now.monitors) end crossing.now)
            → OnOk result (AreNoticesFrom inventory.now self.old.first (before ++ history.Crossing (told_as (ids jobs.now.monitors) end crossing.now) ∷ []) self.new.notices.items) }
    {
        let Some(crossed) = crossed_at(alloc, inventory, jobs, end, crossing)? else {
            return Ok(());
        };
        let Some(number) = self.next() else {
            return Err(AllocError);
        };
        let notice = crossing_notice(alloc, number, &crossed)?;
        self.add(notice)?;
        Ok(())
    }

    /// Adds the notices that these files are ready.
    pub(crate) fn add_files(
        &mut self,
        alloc: Global,
        inventory: &Inventory,
        files: &[ReadyFile],
    ) -> Result<(), AllocError>
        ensures first { self.new.first ≡ self.old.first }
        ensures told { (before : List history.Notice) (reports : List Report) → AreNoticesFrom inventory.now self.old.first before self.old.notices.items
            → AreFilesOf inventory.now reports (map file_of files.now)
            → OnOk result (AreNoticesFrom inventory.now self.old.first (before ++ map history.FileReady reports) self.new.notices.items) }
    {
        let element = managed_element(inventory);
        for file in files {
            self.add_file(alloc, file, element)?;
        }
        Ok(())
    }

    /// Adds those of these crossings at the tick `end`.
    pub(crate) fn add_crossings(
        &mut self,
        alloc: Global,
        inventory: &Inventory,
        jobs: &Jobs,
        end: u64,
        crossings: &[MonitorCrossing],
    ) -> Result<(), AllocError>
        requires { end ≤ 4223371679 }
        ensures first { self.new.first ≡ self.old.first }
        ensures told { (before : List history.Notice) → AreNoticesFrom inventory.now self.old.first before self.old.notices.items
            → AllByRecursion (IsTellable inventory.now) (all_told (ids jobs.now.monitors) end crossings.now)
            → OnOk result (AreNoticesFrom inventory.now self.old.first (before ++ map history.Crossing (all_told (ids jobs.now.monitors) end crossings.now)) self.new.notices.items) }
    {
        for crossing in crossings {
            self.add_crossing(alloc, inventory, jobs, end, crossing)?;
        }
        Ok(())
    }
}
