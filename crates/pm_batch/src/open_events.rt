//! The events of the open tick: batches are read, checked as a whole, and counted.
//!
//!     call            where it answers    then
//!     `read`          Ok                  the batch waits to be counted
//!     `read`          Err                 no batch waits, and nothing was counted
//!     `count`                             the batch that waited, if any, is counted
//!     `forget`                            no batch waits
//!     `clear`                             no batch waits, and nothing is counted
ghost use Rattle.std.specs.Prelude.{◌≡◌, ◌≤◌, ℕ, List, [], length, true, IfOk};
ghost use Rattle.pm_inventory.specs.Inventory.{InventoryState};
ghost use Rattle.pm_events.specs.declared.event.TheConstants.{MOST_REGISTERED};
ghost use Rattle.pm_events.specs.declared.hit.Hit.{Hit};
ghost use Rattle.pm_history.specs.History.{History, Start, ◌▷◌};
ghost use Rattle.pm_history.specs.declared.entry.Entry.{Entry};
ghost use Rattle.pm_items.specs.Items.{ends_tick};
ghost use Rattle.pm_batch.specs.Reading.{AreOfSlots};
ghost use Rattle.pm_batch.specs.Phases.{AreSmall};
ghost use Rattle.pm_batch.specs.Entries.{with_batch};
ghost use Rattle.pm_batch.specs.OpenTick.{HasRoom, width};

use crate::{Batch, BatchError, MOST_BODY, OpenTick};
use pm_base::Code;
use pm_events::SlotTable;
use pm_inventory::Inventory;
use pm_meas::Cell;
use std::alloc::{AllocError, Global};

/// The slots of an inventory, what is counted in the open tick, and the batch that was read last.
#[derive(Drop)]
pub struct OpenEvents {
    slots: SlotTable,
    tick: OpenTick,
    batch: Batch,
    ghost wide: { width tick ≡ length slots },
    ghost of_slots: { AreOfSlots (length slots) batch },
    ghost room: { HasRoom tick batch },
}

impl OpenEvents {
    ghost use Rattle.pm_batch.specs.OpenEvents.{AreEventsOf, EventsStand, ReadsBatch};

    /// Of no event.
    pub fn new(alloc: Global, inventory: &Inventory) -> Result<OpenEvents, AllocError>
        ensures { IfOk result (EventsStand inventory.now Start []) }
    {
        let slots = SlotTable::new(alloc, inventory)?;
        let tick = OpenTick::new(alloc, &slots)?;
        Ok(OpenEvents {
            slots,
            tick,
            batch: Batch::new(alloc),
        })
    }

    /// Reads and checks the lines of a body, `LDN METRIC VALUE` each, in place of the batch that waits. How many there are.
    pub fn read(&mut self, body: &[u8]) -> Result<u32, BatchError>
        requires { length body.now ≤ MOST_BODY }
        ensures stands { (inventory : InventoryState) (h : History) (moment : ℕ) (before : List Hit) → EventsStand inventory h before self.old → ReadsBatch inventory h moment body.now result self.new }
        ensures slots { self.new.slots ≡ self.old.slots }
    {
        self.batch.read(&self.slots, body)?;
        if !self.tick.has_room(self.batch.hits()) {
            self.batch.clear();
            return Err(BatchError::Refused {
                line: 0,
                code: Code::E4,
            });
        }
        Ok(self.batch.hits().len() as u32)
    }

    /// Counts the batch that waits, all its lines at the moment of its request.
    pub fn count(&mut self)
        ensures stands { (inventory : InventoryState) (h : History) (moment : ℕ) (hits : List Hit) → EventsStand inventory h hits self.old → EventsStand inventory (with_batch inventory h moment hits) [] self.new }
        ensures slots { self.new.slots ≡ self.old.slots }
    {
        self.tick.count(self.batch.hits());
        self.batch.clear();
    }

    /// Drops the batch that waits.
    pub fn forget(&mut self)
        ensures stands { (inventory : InventoryState) (h : History) (hits : List Hit) → EventsStand inventory h hits self.old → EventsStand inventory h [] self.new }
        ensures slots { self.new.slots ≡ self.old.slots }
    {
        self.batch.clear();
    }

    /// Begins anew, at an entry that ends what was open.
    pub fn clear(&mut self)
        ensures stands { (inventory : InventoryState) (h : History) (e : Entry) → AreEventsOf inventory self.old → ends_tick h e ≡ true → EventsStand inventory (h ▷ e) [] self.new }
        ensures slots { self.new.slots ≡ self.old.slots }
    {
        self.batch.clear();
        self.tick.clear();
    }

    /// The cells of the open tick, by the numbers of the slots.
    pub fn cells(&self) -> &[Cell]
        ensures cells { result.now ≡ self.now.tick.cells.items }
        ensures width { length result.now ≡ length self.now.slots }
        ensures small { AreSmall MOST_REGISTERED result.now }
    {
        self.tick.cells()
    }

    /// The slots.
    pub fn slots(&self) -> &SlotTable
        ensures { result.now ≡ self.now.slots }
    {
        &self.slots
    }
}
