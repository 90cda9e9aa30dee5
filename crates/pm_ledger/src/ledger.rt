//! A journal of stored items in the first area of a disk.
ghost use Rattle.std.specs.Prelude.{◌≡◌, ◌≤◌, ◌<◌, ◌+◌, ◌++◌, [], ◌∷◌, List, ℕ, length, IsNone, IsSome, IfSome, MatchOption, OnOk, IfOk, IfErr};
ghost use Rattle.pm_outside.specs.Causes.{faults_after};
ghost use Rattle.pm_disk.specs.declared.area.Area.TheVariants.{First};
ghost use Rattle.pm_disk.specs.Moments.{Throughout};
ghost use Rattle.pm_inventory.specs.Inventory.{InventoryState};
ghost use Rattle.pm_history.specs.declared.entry.Entry.{Entry};
ghost use Rattle.pm_history.specs.History.{History, ◌▷◌};
ghost use Rattle.pm_items.specs.Items.{kept};
ghost use Rattle.pm_journal.specs.Items.{HasItems};
ghost use Rattle.pm_journal.specs.Journal.{area_of, limit_of};
ghost use Rattle.pm_journal.specs.Lists.{KeepsArea};
ghost use Rattle.pm_ledger.specs.declared.ledger.TheConstants.{MOST_BYTES};
ghost use Rattle.pm_ledger.specs.Stored.{AddsItem};
ghost use Rattle.pm_ledger.specs.Between.{EachBetween};
ghost use Rattle.pm_store.specs.Item.{IsItem};

use crate::reading::read_item;
use crate::{AddError, OpenError};
use pm_disk::{Area, Disk};
use pm_journal::{Item, Journal, JournalError};
use pm_store::Item1;
use std::alloc::Global;

/// The most bytes that a store has.
pub const MOST_BYTES: u64 = 4294967296;

/// The store of a producer, in the first area of a disk. After a fault of the disk it is spent.
#[derive(Drop)]
pub struct Ledger {
    alloc: Global,
    journal: Journal,
    ghost area: { area_of journal ≡ First },
    ghost limit: { limit_of journal ≡ MOST_BYTES },
}

impl Ledger {
    ghost use Rattle.pm_ledger.specs.Ledger.{length_of, gate_of, IsReady, IsUsable, IsTied, IsAt, IsLedgerOf, TellsNext, Finds};
    ghost use Rattle.pm_ledger.specs.Refusals.{add_fails, open_fails, RefusesToAdd, RefusesToOpen, RefusesNext};

    /// Adds the item that has these bytes. It counts once the call has answered Ok, whatever happens after it. No memory is taken.
    pub fn add<D: Disk>(&mut self, disk: &mut D, bytes: &[u8]) -> Result<(), AddError>
        requires ready { IsReady self.old }
        requires tied { D.IsTold → IsTied self.old (D.told disk.old).now }

        ensures added { D.IsTold → (inventory : InventoryState) (h : History) (e : Entry) → AddsItem inventory h e bytes.now
            → IsLedgerOf inventory self.old (D.told disk.old).now h → OnOk result (IsLedgerOf inventory self.new (D.told disk.new).now (h ▷ e)) }
        ensures tied { D.IsTold → OnOk result (IsTied self.new (D.told disk.new).now) }
        ensures ready { OnOk result (IsReady self.new) }
        ensures longer { OnOk result ((length_of self.new ≡ length_of self.old + 5 + length bytes.now) × (length_of self.new ≤ MOST_BYTES)) }

        // At every moment of the call each image holds what was kept of the history, or the history with the entry.
        ensures any_moment { D.IsTold → (inventory : InventoryState) (h : History) (e : Entry) → AddsItem inventory h e bytes.now
            → IsLedgerOf inventory self.old (D.told disk.old).now h
            → Throughout (EachBetween inventory (kept h) (h ▷ e)) (D.told disk.old) (D.told disk.new) }

        ensures refused { IfErr result (RefusesToAdd D.IsTold (length bytes.now) self.old self.new (D.told disk.old) (D.told disk.new)) }
        ensures faults { D.faults disk.new ≡ faults_after (add_fails result) (D.faults disk.old) }
    {
        match self.journal.append(disk, bytes) {
            Ok(()) => Ok(()),
            Err(JournalError::StoreFault) => Err(AddError::StoreFault),
            Err(JournalError::StoreFull { length, need }) => {
                Err(AddError::StoreFull { length, need })
            }
            Err(JournalError::Foreign | JournalError::Garbled { .. } | JournalError::Memory) => {
                unreachable!()
            }
        }
    }

    /// Opens the store in the first area of a disk. Its items are then told by `next`.
    pub fn open<D: Disk>(alloc: Global, disk: &mut D) -> Result<Ledger, OpenError>
        ensures opened { D.IsTold → IfOk result (λ ledger. (texts : List (List ℕ))
            × HasItems (D.told disk.old).now.first.seen texts × IsAt ledger (D.told disk.new).now [] texts) }
        ensures usable { IfOk result (λ ledger. IsUsable ledger) }
        ensures any_moment { D.IsTold → (inventory : InventoryState) (a b : History) → EachBetween inventory a b (D.told disk.old).now
            → Throughout (EachBetween inventory a b) (D.told disk.old) (D.told disk.new) }

        // An area of over 9 bytes isn't touched, whatever the call answers.
        ensures untouched { D.IsTold → 9 < length (D.told disk.old).now.first.seen
            → Throughout (KeepsArea First (D.told disk.old).now) (D.told disk.old) (D.told disk.new) }

        ensures refused { IfErr result (RefusesToOpen D.IsTold (D.told disk.old) (D.told disk.new)) }
        ensures faults { D.faults disk.new ≡ faults_after (open_fails result) (D.faults disk.old) }
    {
        match Journal::open(alloc, disk, Area::First, MOST_BYTES) {
            Ok(journal) => Ok(Ledger { alloc, journal }),
            Err(JournalError::StoreFault) => Err(OpenError::StoreFault),
            Err(JournalError::Foreign) => Err(OpenError::Foreign),
            Err(
                JournalError::Garbled { .. }
                | JournalError::StoreFull { .. }
                | JournalError::Memory,
            ) => unreachable!(),
        }
    }

    /// Tells the next item. None at the end of the list: what follows it is cut off, and items may be added.
    pub fn next<D: Disk>(&mut self, disk: &mut D) -> Result<Option<Item1>, OpenError>
        requires usable { IsUsable self.old }
        requires tied { D.IsTold → IsTied self.old (D.told disk.old).now }

        ensures next { D.IsTold → (told left : List (List ℕ)) → IsAt self.old (D.told disk.old).now told left
            → IfOk result (λ next. TellsNext next self.new (D.told disk.new).now told left) }
        ensures tied { D.IsTold → OnOk result (IsTied self.new (D.told disk.new).now) }
        ensures usable { OnOk result (IsUsable self.new) }
        ensures ready { IfOk result (λ next. IsNone next → IsReady self.new) }
        ensures on { IfOk result (λ next. IsSome next → gate_of self.old < gate_of self.new) }
        ensures item { IfOk result (λ next. IfSome next IsItem) }
        ensures any_moment { D.IsTold → (inventory : InventoryState) (a b : History) → EachBetween inventory a b (D.told disk.old).now
            → Throughout (EachBetween inventory a b) (D.told disk.old) (D.told disk.new) }

        ensures refused { IfErr result (RefusesNext D.IsTold self.old (D.told disk.old) (D.told disk.new)) }
        ensures faults { D.faults disk.new ≡ faults_after (open_fails result) (D.faults disk.old) }
    {
        match self.find(disk) {
            Ok(Some(item)) => read_item(self.alloc, &item),
            Ok(None) => Ok(None),
            Err(e) => Err(e),
        }
    }

    /// The offset of the gate that it has come to.
    pub fn gate(&self) -> u64
        ensures { result ≡ gate_of self.now }
    {
        self.journal.gate()
    }

    // The bytes of the next item.
    fn find<D: Disk>(&mut self, disk: &mut D) -> Result<Option<Item>, OpenError>
        requires usable { IsUsable self.old }
        requires tied { D.IsTold → IsTied self.old (D.told disk.old).now }

        ensures next { D.IsTold → (told left : List (List ℕ)) → IsAt self.old (D.told disk.old).now told left
            → IfOk result (λ next. Finds next self.old self.new (D.told disk.old).now (D.told disk.new).now told left) }
        ensures tied { D.IsTold → OnOk result (IsTied self.new (D.told disk.new).now) }
        ensures usable { OnOk result (IsUsable self.new) }
        ensures ready { IfOk result (λ next. IsNone next → IsReady self.new) }
        ensures on { IfOk result (λ next. IsSome next → gate_of self.old < gate_of self.new) }
        ensures any_moment { D.IsTold → (inventory : InventoryState) (a b : History) → EachBetween inventory a b (D.told disk.old).now
            → Throughout (EachBetween inventory a b) (D.told disk.old) (D.told disk.new) }
        ensures refused { IfErr result (RefusesNext D.IsTold self.old (D.told disk.old) (D.told disk.new)) }
        ensures faults { D.faults disk.new ≡ faults_after (open_fails result) (D.faults disk.old) }
    {
        match self.journal.next(disk) {
            Ok(item) => Ok(item),
            Err(JournalError::StoreFault) => Err(OpenError::StoreFault),
            Err(JournalError::Garbled { offset }) => Err(OpenError::Garbled { offset }),
            Err(JournalError::Memory) => Err(OpenError::Memory),
            Err(JournalError::Foreign | JournalError::StoreFull { .. }) => unreachable!(),
        }
    }
}
