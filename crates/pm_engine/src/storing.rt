//! The item of what comes next, if it has one, is added to the store.
ghost use Rattle.std.specs.Prelude.{◌≡◌, List, OnOk};
ghost use Rattle.pm_outside.specs.Causes.{faults_after};
ghost use Rattle.pm_disk.specs.Moments.{Throughout};
ghost use Rattle.pm_inventory.specs.Inventory.{InventoryState};
ghost use Rattle.pm_history.specs.declared.entry.Entry.{Entry};
ghost use Rattle.pm_history.specs.History.{History, grown};
ghost use Rattle.pm_items.specs.Items.{kept};
ghost use Rattle.pm_ledger.specs.Between.{EachBetween};
ghost use Rattle.pm_ledger.specs.Ledger.{IsReady, IsTied, IsLedgerOf};
ghost use Rattle.pm_ledger.specs.Refusals.{add_fails};
ghost use Rattle.pm_engine.specs.Adding.{AddsStored};

use pm_base::Blob;
use pm_disk::Disk;
use pm_ledger::{AddError, Ledger};

/// Adds the item that has these bytes, if there is one.
pub fn store<D: Disk>(
    ledger: &mut Ledger,
    disk: &mut D,
    item: &Option<Blob>,
) -> Result<(), AddError>
    requires ready { IsReady ledger.old }
    requires tied { D.IsTold → IsTied ledger.old (D.told disk.old).now }

    ensures stored { D.IsTold → (inventory : InventoryState) (h : History) (es : List Entry) → AddsStored inventory h es item.now
        → IsLedgerOf inventory ledger.old (D.told disk.old).now h → OnOk result (IsLedgerOf inventory ledger.new (D.told disk.new).now (grown h es)) }
    ensures any_moment { D.IsTold → (inventory : InventoryState) (h : History) (es : List Entry) → AddsStored inventory h es item.now
        → IsLedgerOf inventory ledger.old (D.told disk.old).now h
        → Throughout (EachBetween inventory (kept h) (kept (grown h es))) (D.told disk.old) (D.told disk.new) }
    ensures tied { D.IsTold → OnOk result (IsTied ledger.new (D.told disk.new).now) }
    ensures ready { OnOk result (IsReady ledger.new) }
    ensures faults { D.faults disk.new ≡ faults_after (add_fails result) (D.faults disk.old) }
{
    match item {
        Some(item) => ledger.add(disk, item.as_bytes()),
        None => Ok(()),
    }
}
