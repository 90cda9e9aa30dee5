//! What holds of the lines of every inventory.
ghost use Rattle.pm_inventory.specs.InventoryLaw.{OneRefusal, NeverRefused, OneInventory};

/// Lines are refused at one number and by one code. A law: the call does nothing.
pub fn one_refusal()
    ensures { OneRefusal }
{}

/// Lines that begin with those of an inventory aren't refused. A law: the call does nothing.
pub fn never_refused()
    ensures { NeverRefused }
{}

/// Lines begin with those of one inventory at the most. A law: the call does nothing.
pub fn one_inventory()
    ensures { OneInventory }
{}
