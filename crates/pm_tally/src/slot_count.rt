//! What a tally keeps of a slot.
ghost use Rattle.std.specs.Prelude.{◌≡◌, ◌+◌, ◌*◌, ◌<◌, ◌≤◌, ◌++◌, ◌∷◌, [], ℕ, List, length};
ghost use Rattle.pm_meas.specs.declared.cell.TheConstants.{MAX_VALUE};
ghost use Rattle.pm_meas.specs.Cell.{cell_of};

use pm_events::MOST_REGISTERED;
use pm_meas::Cell;

/// The fold of a slot's registered values in a tick, and how many events it had since the last one that was registered.
#[derive(Clone, Copy, Debug)]
pub struct SlotCount {
    pub cell: Cell,
    pub seen: u32,
    pub registers_each: u32,
    ghost sound: { cell.sum ≤ cell.n * MAX_VALUE },
    ghost below: { seen < registers_each },
    ghost range: { registers_each ≤ 1000 },
}

impl SlotCount {
    ghost use Rattle.pm_tally.specs.Counting.{IsStep, IsClear};

    /// Of no event, for a slot that registers one of so many.
    pub fn new(registers_each: u32) -> SlotCount
        requires range { (1 ≤ registers_each) × (registers_each ≤ 1000) }
        ensures { IsClear registers_each result }
    {
        SlotCount {
            cell: Cell::empty(),
            seen: 0,
            registers_each,
        }
    }

    /// Begins anew, as at the start of a tick.
    pub fn clear(&mut self)
        ensures { IsClear self.old.registers_each self.new }
    {
        *self = SlotCount::new(self.registers_each);
    }

    /// Counts an event, and answers whether it is registered.
    pub fn count(&mut self, value: u32) -> bool
        requires { value ≤ MAX_VALUE }
        ensures { IsStep self.old value self.new result }
    {
        let seen = self.seen + 1;
        if seen < self.registers_each {
            self.seen = seen;
            return false;
        }
        self.seen = 0;
        add(&mut self.cell, value);
        true
    }
}

// A slot has at most as many values as its tick has registered events, so there is room in a tally that counts them.
fn add(cell: &mut Cell, value: u32)
    requires value { value ≤ MAX_VALUE }
    requires sound { cell.old.sum ≤ cell.old.n * MAX_VALUE }
    ensures fold { (values : List ℕ) → cell.old ≡ cell_of values → length values < 1073741824 → cell.new ≡ cell_of (values ++ value ∷ []) }
    ensures sound { cell.new.sum ≤ cell.new.n * MAX_VALUE }
{
    if cell.n < u64::from(MOST_REGISTERED) {
        cell.add(value);
    }
}
