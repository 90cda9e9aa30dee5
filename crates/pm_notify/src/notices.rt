//! The notices that are kept.
ghost use Rattle.std.specs.Prelude.{◌≡◌, ◌+◌, ◌++◌, ◌<◌, ◌≤◌, ◌^◌, ℕ, List, [], true, length, map, All, AllPairs, IfOk, OnOk, vec_len, vec_capacity};
ghost use Rattle.std.specs.List.{filter};
ghost use Rattle.pm_base.specs.Moment.{tick_of};
ghost use Rattle.pm_inventory.specs.Inventory.{InventoryState};
ghost use Rattle.pm_history.specs.declared.entry.Entry.{Entry};
ghost use Rattle.pm_history.specs.declared.entry.Entry.TheVariants.{Boot, Now};
ghost use Rattle.pm_history.specs.Entry.{moment_of};
ghost use Rattle.pm_history.specs.Files.{Report, files_of};
ghost use Rattle.pm_history.specs.History.{History, Start, ◌▷◌, IsHistory, last_moment};
ghost use Rattle.pm_asked.specs.Asked.{terms_of};
ghost use Rattle.pm_jobs.specs.Stands.{Stands};
ghost use Rattle.pm_close.specs.MonitorPlans.{AreCrossings};
ghost use Rattle.pm_notice.specs.declared.notice.Notice.{Notice};
ghost use Rattle.pm_notice.specs.declared.subscription.Subscription.{Subscription};
ghost use Rattle.pm_notice.specs.Round.{are_within, IsServable};
ghost use Rattle.pm_ready.specs.Files.{AreFilesOf, file_of};
ghost use Rattle.pm_notify.specs.Kept.{lasts, NoticesStand, AddsNotices};

use crate::AddedNotices;
use crate::ends::{notices_of_ends, notices_of_files};
use pm_close::EndCrossings;
use pm_inventory::Inventory;
use pm_jobs::Jobs;
use pm_notice::Notice;
use pm_ready::ReadyFile;
use std::alloc::{AllocError, Global};
use std::marker::Model;

/// The seconds after the end of its period at which a notice expires.
const EXPIRY: u64 = 86_400;

/// The notices of a history that are not expired, oldest first, and how many there are with those that are.
#[derive(Drop)]
pub struct Notices {
    notices: Vec<Notice>,
    total: u64,
    ghost rising: { AllPairs (λ (m n : Notice). m.number < n.number) notices.items },
    ghost numbered: { All (λ (n : Notice). n.number < total) notices.items },
}

impl Model for Notices {
    ghost use Rattle.std.specs.Prelude.{◌-◌, vec_len, vec_capacity};
    ghost use Rattle.pm_notify.specs.Kept.{NoticesState};

    ghost Value = { NoticesState };

    ghost view = { λ n. record { kept = n.notices.items; total = n.total; room = vec_capacity n.notices - vec_len n.notices } };
}

fn lasts(notice: &Notice, moment: u64) -> bool
    ensures { result ≡ lasts moment notice.now }
{
    moment < EXPIRY || moment - EXPIRY < notice.end
}

// Those that are not expired.
fn keep(notices: &mut Vec<Notice>, moment: u64)
    ensures notices { notices.new.items ≡ filter (lasts moment) notices.old.items }
    ensures fewer { vec_len notices.new ≤ vec_len notices.old }
    ensures room { vec_capacity notices.new ≡ vec_capacity notices.old }
{
    notices.retain(|notice| lasts(notice, moment));
}

impl Notices {
    /// None. It takes no memory.
    pub fn new(alloc: Global) -> Notices
        ensures kept { result.kept ≡ [] }
        ensures total { result.total ≡ 0 }

        // They stand for a history before its first entry and after it.
        ensures stands { (inventory : InventoryState) → NoticesStand inventory Start result }
        ensures first { (inventory : InventoryState) (e : Entry) → NoticesStand inventory (Start ▷ e) result }
    {
        Notices {
            notices: Vec::new(alloc),
            total: 0,
        }
    }

    /// How many notices there are, with those that are kept no more.
    pub fn total(&self) -> u64
        ensures { result ≡ self.now.total }
    {
        self.total
    }

    /// The notices, oldest first.
    pub fn as_slice(&self) -> &[Notice]
        ensures kept { result.now ≡ self.now.kept }

        // They can be handed to the rounds of all subscriptions whose cursors are at most the number of notices.
        ensures servable { (subs : List Subscription) → are_within self.now.total subs ≡ true → IsServable subs result.now self.now.total }
    {
        &self.notices
    }

    /// The notices that a request in a later tick, or a start of the program, adds, with all their texts: by the files of the
    /// reports that become due and the crossings at each end after the tick `from`, that of the last moment. Also without
    /// numbers for them it answers that there is no memory.
    pub fn prepare(
        &self,
        alloc: Global,
        inventory: &Inventory,
        jobs: &Jobs,
        from: u64,
        files: &[ReadyFile],
        crossings: &[EndCrossings],
    ) -> Result<AddedNotices, AllocError>
        requires { from < 2 ^ 57 }
        ensures next { IfOk result (λ added. added.first ≡ self.now.total) }

        // They are those that the entry adds, for each history whose files and crossings these are.
        ensures now { (h : History) (moment : ℕ) (reports : List Report)
            → IsHistory (h ▷ Now moment) → Stands inventory.now jobs.now h → tick_of (last_moment h) ≡ from
            → files_of (terms_of inventory.now) (h ▷ Now moment) ≡ files_of (terms_of inventory.now) h ++ reports
            → AreFilesOf inventory.now reports (map file_of files.now)
            → AreCrossings inventory.now jobs.now (h ▷ Now moment) from (tick_of moment) crossings.now
            → IfOk result (λ added. AddsNotices inventory.now h (Now moment) self.now.total added.notices.items) }
        ensures boot { crossings.now ≡ [] → (h : History) (moment : ℕ) (reports : List Report)
            → IsHistory (h ▷ Boot moment)
            → files_of (terms_of inventory.now) (h ▷ Boot moment) ≡ files_of (terms_of inventory.now) h ++ reports
            → AreFilesOf inventory.now reports (map file_of files.now)
            → IfOk result (λ added. AddsNotices inventory.now h (Boot moment) self.now.total added.notices.items) }
    {
        if crossings.is_empty() {
            return notices_of_files(alloc, inventory, self.total, files);
        }
        notices_of_ends(alloc, inventory, jobs, self.total, from, files, crossings)
    }

    /// Takes the memory for so many more.
    pub fn reserve(&mut self, more: usize) -> Result<(), AllocError>
        ensures kept { self.new.kept ≡ self.old.kept }
        ensures total { self.new.total ≡ self.old.total }
        ensures room { OnOk result (more ≤ self.new.room) }
    {
        self.notices.reserve(more)
    }

    /// The history went on to this moment: what has expired goes, and the new ones come after the others. It takes no memory.
    pub fn step(&mut self, moment: u64, added: AddedNotices)
        requires next { added.first ≡ self.old.total }
        requires room { length added.notices.items ≤ self.old.room }
        ensures kept { self.new.kept ≡ filter (lasts moment) (self.old.kept ++ added.notices.items) }
        ensures total { self.new.total ≡ self.old.total + length added.notices.items }

        // Notices that stand for a history stand for it with an entry of this moment, where the new ones are those that it adds.
        ensures stands { (inventory : InventoryState) (h : History) (e : Entry)
            → last_moment h ≤ moment → moment_of e ≡ moment
            → AddsNotices inventory h e self.old.total added.notices.items
            → NoticesStand inventory h self.old → NoticesStand inventory (h ▷ e) self.new }
    {
        self.renew(moment, added);
    }

    fn renew(&mut self, moment: u64, added: AddedNotices)
        requires next { added.first ≡ self.old.total }
        requires room { length added.notices.items ≤ self.old.room }
        ensures kept { self.new.kept ≡ filter (lasts moment) (self.old.kept ++ added.notices.items) }
        ensures total { self.new.total ≡ self.old.total + length added.notices.items }
    {
        let AddedNotices { mut notices, .. } = added;
        let total = self.total + notices.len() as u64;
        keep(&mut self.notices, moment);
        keep(&mut notices, moment);
        // There is room for them.
        let _ = self.notices.append(&mut notices);
        self.total = total;
    }
}
