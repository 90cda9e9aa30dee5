//! A store is opened, and has no items.
ghost use Rattle.std.specs.Prelude.{◌≡◌, [], IfOk, OnOk, Err};
ghost use Rattle.pm_outside.specs.Causes.{faults_after};
ghost use Rattle.pm_disk.specs.Moments.{Throughout};
ghost use Rattle.pm_inventory.specs.Inventory.{InventoryState};
ghost use Rattle.pm_history.specs.declared.entry.Entry.{Entry};
ghost use Rattle.pm_history.specs.History.{History, Start, ◌▷◌};
ghost use Rattle.pm_items.specs.Items.{kept};
ghost use Rattle.pm_journal.specs.Items.{HasItems};
ghost use Rattle.pm_ledger.specs.Between.{EachBetween};
ghost use Rattle.pm_ledger.specs.Ledger.{IsReady, IsTied, IsLedgerOf};
ghost use Rattle.pm_ledger.specs.declared.error.OpenError.TheVariants as garbled;
ghost use Rattle.pm_ledger.specs.Refusals as ledger;
ghost use Rattle.pm_ledger.specs.Stored.{AddsItem};
ghost use Rattle.pm_engine.specs.Refusals.{open_fails};

use crate::OpenError;
use pm_disk::Disk;
use pm_ledger::{AddError, Ledger};
use pm_store::Item1;
use std::alloc::Global;

/// Opens a store that has no items. One that has some isn't taken yet, and is garbled at its first gate.
pub fn open_ledger<D: Disk>(alloc: Global, disk: &mut D) -> Result<Ledger, pm_ledger::OpenError>
    ensures empty { D.IsTold → (inventory : InventoryState) → IfOk result (λ ledger. IsLedgerOf inventory ledger (D.told disk.new).now Start) }
    ensures fresh { D.IsTold → IfOk result (λ ledger. HasItems (D.told disk.old).now.first.seen []) }
    ensures usable { IfOk result (λ ledger. IsReady ledger) }
    ensures tied { D.IsTold → IfOk result (λ ledger. IsTied ledger (D.told disk.new).now) }
    ensures any_moment { D.IsTold → (inventory : InventoryState) (a b : History) → EachBetween inventory a b (D.told disk.old).now
        → Throughout (EachBetween inventory a b) (D.told disk.old) (D.told disk.new) }
    ensures faults { D.faults disk.new ≡ faults_after (ledger.open_fails result) (D.faults disk.old) }
{
    let mut ledger = Ledger::open(alloc, disk)?;
    match ledger.next(disk) {
        Ok(Some(item)) => not_taken(item),
        Ok(None) => Ok(ledger),
        Err(e) => Err(e),
    }
}

fn not_taken(_: Item1) -> Result<Ledger, pm_ledger::OpenError>
    ensures { result ≡ Err (garbled.Garbled 8) }
{
    Err(pm_ledger::OpenError::Garbled { offset: 8 })
}

/// Opens a store that has no items, with the refusals of an engine.
pub fn open_empty<D: Disk>(alloc: Global, disk: &mut D) -> Result<Ledger, OpenError>
    ensures empty { D.IsTold → (inventory : InventoryState) → IfOk result (λ ledger. IsLedgerOf inventory ledger (D.told disk.new).now Start) }
    ensures fresh { D.IsTold → IfOk result (λ ledger. HasItems (D.told disk.old).now.first.seen []) }
    ensures usable { IfOk result (λ ledger. IsReady ledger) }
    ensures tied { D.IsTold → IfOk result (λ ledger. IsTied ledger (D.told disk.new).now) }
    ensures any_moment { D.IsTold → (inventory : InventoryState) (a b : History) → EachBetween inventory a b (D.told disk.old).now
        → Throughout (EachBetween inventory a b) (D.told disk.old) (D.told disk.new) }
    ensures faults { D.faults disk.new ≡ faults_after (open_fails result) (D.faults disk.old) }
{
    match open_ledger(alloc, disk) {
        Ok(ledger) => Ok(ledger),
        Err(pm_ledger::OpenError::StoreFault) => Err(OpenError::StoreFault),
        Err(pm_ledger::OpenError::Foreign) => Err(OpenError::Foreign),
        Err(pm_ledger::OpenError::Garbled { offset }) => Err(OpenError::Garbled { offset }),
        Err(pm_ledger::OpenError::Memory) => Err(OpenError::Memory),
    }
}

/// Adds the first item of a store.
pub fn add_first<D: Disk>(ledger: &mut Ledger, disk: &mut D, bytes: &[u8]) -> Result<(), OpenError>
    requires ready { IsReady ledger.old }
    requires tied { D.IsTold → IsTied ledger.old (D.told disk.old).now }

    ensures added { D.IsTold → (inventory : InventoryState) (h : History) (e : Entry) → AddsItem inventory h e bytes.now
        → IsLedgerOf inventory ledger.old (D.told disk.old).now h → OnOk result (IsLedgerOf inventory ledger.new (D.told disk.new).now (h ▷ e)) }
    ensures tied { D.IsTold → OnOk result (IsTied ledger.new (D.told disk.new).now) }
    ensures ready { OnOk result (IsReady ledger.new) }
    ensures any_moment { D.IsTold → (inventory : InventoryState) (h : History) (e : Entry) → AddsItem inventory h e bytes.now
        → IsLedgerOf inventory ledger.old (D.told disk.old).now h
        → Throughout (EachBetween inventory (kept h) (h ▷ e)) (D.told disk.old) (D.told disk.new) }
    ensures faults { D.faults disk.new ≡ faults_after (open_fails result) (D.faults disk.old) }
{
    match ledger.add(disk, bytes) {
        Ok(()) => Ok(()),
        Err(AddError::StoreFault) => Err(OpenError::StoreFault),
        Err(AddError::StoreFull { length, need }) => Err(OpenError::StoreFull { length, need }),
    }
}

/// Opens a store that has no items, and adds its first.
pub fn open_begun<D: Disk>(alloc: Global, disk: &mut D, bytes: &[u8]) -> Result<Ledger, OpenError>
    ensures begun { D.IsTold → (inventory : InventoryState) (e : Entry) → AddsItem inventory Start e bytes.now
        → IfOk result (λ ledger. IsLedgerOf inventory ledger (D.told disk.new).now (Start ▷ e)) }
    ensures fresh { D.IsTold → IfOk result (λ ledger. HasItems (D.told disk.old).now.first.seen []) }
    ensures usable { IfOk result (λ ledger. IsReady ledger) }
    ensures tied { D.IsTold → IfOk result (λ ledger. IsTied ledger (D.told disk.new).now) }
    ensures any_moment { D.IsTold → (inventory : InventoryState) (e : Entry) → AddsItem inventory Start e bytes.now
        → EachBetween inventory Start Start (D.told disk.old).now
        → Throughout (EachBetween inventory Start (Start ▷ e)) (D.told disk.old) (D.told disk.new) }
    ensures faults { D.faults disk.new ≡ faults_after (open_fails result) (D.faults disk.old) }
{
    match open_empty(alloc, disk) {
        Ok(ledger) => begun(ledger, disk, bytes),
        Err(e) => Err(e),
    }
}

fn begun<D: Disk>(mut ledger: Ledger, disk: &mut D, bytes: &[u8]) -> Result<Ledger, OpenError>
    requires ready { IsReady ledger }
    requires tied { D.IsTold → IsTied ledger (D.told disk.old).now }

    ensures begun { D.IsTold → (inventory : InventoryState) (e : Entry) → AddsItem inventory Start e bytes.now
        → IsLedgerOf inventory ledger (D.told disk.old).now Start → IfOk result (λ l. IsLedgerOf inventory l (D.told disk.new).now (Start ▷ e)) }
    ensures usable { IfOk result (λ l. IsReady l) }
    ensures tied { D.IsTold → IfOk result (λ l. IsTied l (D.told disk.new).now) }
    ensures any_moment { D.IsTold → (inventory : InventoryState) (e : Entry) → AddsItem inventory Start e bytes.now
        → IsLedgerOf inventory ledger (D.told disk.old).now Start
        → Throughout (EachBetween inventory Start (Start ▷ e)) (D.told disk.old) (D.told disk.new) }
    ensures faults { D.faults disk.new ≡ faults_after (open_fails result) (D.faults disk.old) }
{
    match add_first(&mut ledger, disk, bytes) {
        Ok(()) => Ok(ledger),
        Err(e) => Err(e),
    }
}
