//! The ManagedElement, which sends the reports.
ghost use Rattle.std.specs.Prelude.{◌≡◌, true};
ghost use Rattle.pm_file.specs.ReportForm.{element_name, object_name};
ghost use Rattle.pm_ready.specs.Files.{element_of};

use pm_inventory::Inventory;

/// The distinguished name of the ManagedElement.
pub fn managed_element(inventory: &Inventory) -> &[u8]
    ensures value { result.now ≡ element_of inventory.now }
    ensures element { element_name result.now ≡ true }
    ensures object { object_name result.now ≡ true }
{
    // The first object of a tree is its root, and an inventory has one.
    let _slots = inventory.slots();
    let tree = inventory.tree();
    let _objects = tree.len();
    tree.text(0)
}
