//! The inventory of a base station: its managed objects, its measurements, and the slots that follow from them.
#![tactic(auto)]

mod default;
mod inventory;
mod inventory_law;
mod inventory_line;
mod inventory_reading;
mod inventory_text;

pub use inventory::{InvError, Inventory, MAX_SLOTS, has_class};
pub use inventory_law::{never_refused, one_inventory, one_refusal};
pub use inventory_line::{LineError, take_line};
pub use inventory_reading::{InventoryError, ReadInventory, read_inventory};

#[cfg(test)]
mod tests;
