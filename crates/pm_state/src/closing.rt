//! What ends with ticks, and what came of it: what is open of jobs and monitors, the report files and the notices.
ghost use Rattle.std.specs.Prelude.{◌≡◌, ◌≤◌, ◌<◌, [], Bool, false, length, IfOk};
ghost use Rattle.pm_base.specs.Moment.{IsMoment, tick_of};
ghost use Rattle.pm_inventory.specs.Inventory.{InventoryState, slots};
ghost use Rattle.pm_history.specs.declared.entry.Entry.TheVariants.{Boot};
ghost use Rattle.pm_history.specs.History.{History, Start, ◌▷◌, IsHistory};
ghost use Rattle.pm_jobs.specs.State.{JobsState};
ghost use Rattle.pm_jobs.specs.Stands.{Stands};
ghost use Rattle.pm_close.specs.Rows.{AreSmall};
ghost use Rattle.pm_close.specs.Closer.{ArePaired, AreCurrent, closer_tick};
ghost use Rattle.pm_close.specs.DueReports.{ended_by};
ghost use Rattle.pm_state.specs.Closing.{ClosingStands, IsKept, IsEnd, MayEnact};

use crate::report_files::due_files;
use pm_close::{Booking, Closer};
use pm_inventory::Inventory;
use pm_jobs::Jobs;
use pm_meas::Cell;
use pm_notify::{AddedNotices, Notices};
use pm_ready::{ReadyFile, ReadyFiles};
use std::alloc::{AllocError, Global};

/// What is open of jobs and monitors, and the report files and notices that aren't expired.
#[derive(Drop)]
pub struct Closing {
    pub(crate) closer: Closer,
    pub(crate) files: ReadyFiles,
    pub(crate) notices: Notices,
}

/// What an entry that ends ticks comes to, with all memory that it takes.
#[derive(Drop)]
pub struct Ended {
    booking: Booking,
    files: Vec<ReadyFile>,
    notices: AddedNotices,
}

impl Closing {
    /// What is kept of nothing.
    pub fn new(alloc: Global, inventory: &Inventory) -> Result<Closing, AllocError>
        ensures stands { IfOk result (ClosingStands inventory.now (record { jobs = []; monitors = [] }) Start) }
        ensures wide { IfOk result (λ closing. closing.closer.cells.slots ≡ length (slots inventory.now)) }
        ensures tick { IfOk result (λ closing. closer_tick closing.closer ≡ 0) }
        ensures paired { IfOk result (λ closing. ArePaired (record { jobs = []; monitors = [] }) closing.closer) }
    {
        let closer = Closer::new(alloc, inventory)?;
        Ok(Closing {
            closer,
            files: ReadyFiles::new(alloc),
            notices: Notices::new(alloc),
        })
    }

    /// What a Now in a later tick comes to, or a Boot: `cells` are those of the open tick, by slot. What stands stays.
    pub fn end(
        &mut self,
        alloc: Global,
        inventory: &Inventory,
        jobs: &Jobs,
        cells: &[Cell],
        moment: u64,
        boot: bool,
    ) -> Result<Ended, AllocError>
        requires paired { ArePaired jobs.now self.old.closer }
        requires wide { length cells.now ≡ self.old.closer.cells.slots }
        requires small { AreSmall cells.now }
        requires in_range { IsMoment moment }
        requires later { closer_tick self.old.closer ≤ tick_of moment }
        requires after { boot ≡ false → closer_tick self.old.closer < tick_of moment }
        ensures may { IfOk result (MayEnact self.new (tick_of moment)) }
        ensures closer { self.new.closer ≡ self.old.closer }
        ensures files { self.new.files.files ≡ self.old.files.files }
        ensures notices { IsKept self.old.notices self.new.notices }
        ensures end { (h : History) → ClosingStands inventory.now jobs.now h self.old → Stands inventory.now jobs.now h
            → IsHistory (h ▷ ended_by boot moment) → AreCurrent (slots inventory.now) h cells.now
            → IfOk result (IsEnd inventory.now jobs.now h boot moment self.new) }
    {
        let booking = self.closer.book(alloc, jobs, cells, moment, boot)?;
        let files = due_files(alloc, inventory, jobs, &self.closer, booking.reports())?;
        let from = self.closer.tick();
        let crossings = booking.crossings();
        let notices = self
            .notices
            .prepare(alloc, inventory, jobs, from, &files, crossings)?;
        self.files.reserve(files.len())?;
        self.notices.reserve(notices.as_slice().len())?;
        Ok(Ended {
            booking,
            files,
            notices,
        })
    }

    /// The entry at this moment has come: ends what it ends. It takes no memory.
    pub fn enact(&mut self, moment: u64, ended: Ended)
        requires { MayEnact self.old (tick_of moment) ended }
        ensures stands { (inventory : InventoryState) (jobs : JobsState) (h : History) (boot : Bool) → ClosingStands inventory jobs h self.old
            → IsHistory (h ▷ ended_by boot moment) → IsEnd inventory jobs h boot moment self.old ended
            → ClosingStands inventory jobs (h ▷ ended_by boot moment) self.new }
        ensures tick { closer_tick self.new.closer ≡ tick_of moment }
        ensures total { self.old.notices.total ≤ self.new.notices.total }
        ensures wide { self.new.closer.cells.slots ≡ self.old.closer.cells.slots }
        ensures paired { (jobs : JobsState) → ArePaired jobs self.old.closer → ArePaired jobs self.new.closer }
    {
        self.closer.enact(ended.booking);
        self.files.step(moment, ended.files);
        self.notices.step(moment, ended.notices);
    }
}

/// What is kept after the first Boot, which ends nothing: `cells` are without values.
pub fn begun(
    alloc: Global,
    inventory: &Inventory,
    jobs: &Jobs,
    cells: &[Cell],
    moment: u64,
) -> Result<Closing, AllocError>
    requires none { jobs.now ≡ record { jobs = []; monitors = [] } }
    requires wide { length cells.now ≡ length (slots inventory.now) }
    requires small { AreSmall cells.now }
    requires in_range { IsMoment moment }
    ensures stands { AreCurrent (slots inventory.now) Start cells.now → IfOk result (ClosingStands inventory.now jobs.now (Start ▷ Boot moment)) }
    ensures wide { IfOk result (λ closing. closing.closer.cells.slots ≡ length (slots inventory.now)) }
    ensures tick { IfOk result (λ closing. closer_tick closing.closer ≡ tick_of moment) }
    ensures paired { IfOk result (λ closing. ArePaired jobs.now closing.closer) }
{
    let mut closing = Closing::new(alloc, inventory)?;
    let ended = closing.end(alloc, inventory, jobs, cells, moment, true)?;
    closing.enact(moment, ended);
    Ok(closing)
}
