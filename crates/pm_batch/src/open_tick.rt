//! What is kept of the tick that is open.
ghost use Rattle.std.specs.Prelude.{◌≡◌, ◌≤◌, ◌<◌, ◌+◌, ◌↔◌, ℕ, true, false, length, IfOk, IsTrue, replicate};
ghost use Rattle.pm_inventory.specs.Inventory.{InventoryState};
ghost use Rattle.pm_inventory.specs.Slot.{event_slots};
ghost use Rattle.pm_events.specs.declared.event.TheConstants.{MOST_REGISTERED};
ghost use Rattle.pm_events.specs.declared.hit.Hit.{Hit};
ghost use Rattle.pm_meas.specs.declared.cell.TheConstants.{MAX_VALUE};
ghost use Rattle.pm_history.specs.History.{History, Start, ◌▷◌};
ghost use Rattle.pm_history.specs.declared.entry.Entry.{Entry};
ghost use Rattle.pm_items.specs.Items.{ends_tick};
ghost use Rattle.pm_batch.specs.Reading.{AreOfSlots};
ghost use Rattle.pm_batch.specs.Phases.{ArePhases, AreSmall, phase_at, registers};
ghost use Rattle.pm_batch.specs.OpenCounts.{one_if};
ghost use Rattle.pm_batch.specs.Entries.{with_batch};

use crate::phase::{Phase, begin_anew, count_registered, first_phases};
use pm_events::{Hit, MOST_REGISTERED, SlotTable};
use pm_meas::Cell;
use std::alloc::{AllocError, Global};

/// Of each slot the fold of its registered values since the tick began, or since the last start of the program in it.
#[derive(Drop)]
pub struct OpenTick {
    cells: Vec<Cell>,
    phases: Vec<Phase>,
    // What a batch would leave of the phases, where it is tried out.
    trial: Vec<Phase>,
    registered: u32,
    ghost few: { registered ≤ MOST_REGISTERED },
    ghost wide: { length cells.items ≡ length phases.items },
    ghost trial_wide: { length trial.items ≡ length phases.items },
    ghost sound: { ArePhases phases.items },
    ghost trial_sound: { ArePhases trial.items },
    ghost small: { AreSmall registered cells.items },
}

impl OpenTick {
    ghost use Rattle.pm_batch.specs.OpenTick.{TickStands, IsTickOf, HasRoom, SameTick, CountsHit, width};

    /// Of no event.
    pub fn new(alloc: Global, slots: &SlotTable) -> Result<OpenTick, AllocError>
        ensures width { IfOk result (λ tick. width tick ≡ length slots.now) }
        ensures stands { IfOk result (λ tick. (inventory : InventoryState) → slots.now ≡ event_slots inventory → TickStands inventory Start tick) }
    {
        let cells = vec![in alloc; Cell::empty(); usize::from(slots.len())]?;
        let phases = first_phases(alloc, slots)?;
        let trial = first_phases(alloc, slots)?;
        Ok(OpenTick {
            cells,
            phases,
            trial,
            registered: 0,
        })
    }

    /// The cells, by the numbers of the slots.
    pub fn cells(&self) -> &[Cell]
        ensures cells { result.now ≡ self.now.cells.items }
        ensures width { length result.now ≡ width self.now }
        ensures small { AreSmall MOST_REGISTERED result.now }
    {
        self.cells.as_slice()
    }

    /// Whether no more than 1,073,741,824 events were registered with those of these hits.
    pub fn has_room(&mut self, hits: &[Hit]) -> bool
        requires { AreOfSlots (width self.old) hits.now }
        ensures room { IsTrue result ↔ HasRoom self.old hits.now }
        ensures same { SameTick self.old self.new }
    {
        if u64::from(self.registered) + hits.len() as u64 <= u64::from(MOST_REGISTERED) {
            return true;
        }
        self.try_out(hits)
    }

    #[cold]
    #[inline(never)]
    fn try_out(&mut self, hits: &[Hit]) -> bool
        requires { AreOfSlots (width self.old) hits.now }
        ensures room { IsTrue result ↔ HasRoom self.old hits.now }
        ensures same { SameTick self.old self.new }
    {
        self.trial.copy_from_slice(self.phases.as_slice());
        let more = count_registered(self.trial.as_mut_slice(), hits);
        more <= u64::from(MOST_REGISTERED - self.registered)
    }

    /// Begins anew, at an entry that ends what was open.
    pub fn clear(&mut self)
        ensures width { width self.new ≡ width self.old }
        ensures stands { (inventory : InventoryState) (h : History) (e : Entry) → IsTickOf inventory self.old → ends_tick h e ≡ true → TickStands inventory (h ▷ e) self.new }
    {
        self.cells.fill(Cell::empty());
        begin_anew(self.phases.as_mut_slice());
        self.registered = 0;
    }

    /// Counts the hits of a batch.
    pub fn count(&mut self, hits: &[Hit])
        requires slots { AreOfSlots (width self.old) hits.now }
        requires room { HasRoom self.old hits.now }
        ensures width { width self.new ≡ width self.old }
        ensures counted { (inventory : InventoryState) (h : History) (moment : ℕ) → TickStands inventory h self.old → TickStands inventory (with_batch inventory h moment hits.now) self.new }
    {
        for hit in hits {
            self.add(*hit);
        }
    }

    #[inline(always)]
    fn add(&mut self, hit: Hit)
        requires slot { hit.slot < width self.old }
        requires value { hit.value ≤ MAX_VALUE }
        requires room { self.old.registered + one_if (registers (phase_at self.old.phases.items hit.slot)) ≤ MOST_REGISTERED }
        ensures width { width self.new ≡ width self.old }
        ensures counted { CountsHit self.old hit self.new }
    {
        let slot = hit.slot as usize;
        if !self.phases[slot].step() {
            return;
        }
        self.cells[slot].add(hit.value);
        self.registered += 1;
    }
}
