//! The cells of ticks that are over, a row for each tick of a run.
//!
//! Rows stand end to end in one vector, oldest first. A row has a cell for each slot, at the slot's number. The run ends
//! before the tick of the last moment. Room is taken beforehand, so that a tick ends without memory.

ghost use Rattle.std.specs.Prelude.{◌≡◌, ◌≤◌, ◌<◌, ◌+◌, ◌-◌, ◌*◌, ◌^◌, ◌++◌, ℕ, List, [], false, length, max, drop, replicate, OnOk, vec_capacity};
ghost use Rattle.pm_base.specs.Moment.{tick_of};
ghost use Rattle.pm_meas.specs.Cell.{cell_of};
ghost use Rattle.pm_inventory.specs.Inventory.{SlotKey};
ghost use Rattle.pm_history.specs.History.{History, Start, ◌▷◌, IsHistory, size, last_moment};
ghost use Rattle.pm_history.specs.declared.entry.Entry.TheVariants.{Boot, Now};
ghost use Rattle.pm_close.specs.Rows.{AreSmall, IsSmall};
ghost use Rattle.pm_close.specs.declared.limits.TheConstants.{MOST_TICKS};

use crate::limits::MOST_TICKS;
use crate::row::{append, append_blank, forget_front};
use pm_meas::Cell;
use std::alloc::{AllocError, Global};

/// Rows of cells for so many ticks from a first one on.
#[derive(Drop)]
pub struct TickCells {
    slots: usize,
    first: u64,
    ticks: u64,
    cells: Vec<Cell>,
    ghost few_slots: { slots < 2 ^ 32 },
    ghost few_ticks: { ticks < MOST_TICKS },
    ghost small: { AreSmall cells.items },
    ghost whole: { length cells.items ≡ ticks * slots },
    ghost in_range: { first + ticks < 2 ^ 63 },
}

impl TickCells {
    ghost use Rattle.pm_close.specs.Cells.{CellsStand, AreOpen, HasRoom, SameCells};
    ghost use Rattle.pm_close.specs.Values.{known_cell};
    ghost use Rattle.pm_close.specs.DueReports.{ended_by};

    /// No row yet.
    pub fn new(alloc: Global, slots: u32) -> TickCells
        ensures stands { (keys : List SlotKey) → length keys ≡ slots → CellsStand keys Start result }
        ensures slots { result.slots ≡ slots }
        ensures reach { result.first + result.ticks ≡ 0 }
    {
        TickCells {
            slots: slots as usize,
            first: 0,
            ticks: 0,
            cells: Vec::new(alloc),
        }
    }

    /// Takes the room for the rows of so many ticks.
    pub fn reserve(&mut self, ticks: u64) -> Result<(), AllocError>
        requires { ticks < MOST_TICKS }
        ensures room { OnOk result (HasRoom self.new ticks) }
        ensures same { SameCells self.old self.new }
    {
        let all = ticks as usize * self.slots;
        let more = all.saturating_sub(self.cells.len());
        self.cells.reserve_exact(more)
    }

    /// A request in a later tick ends the open one, whose cells these are, and those between. From the tick `from` on rows
    /// are kept.
    pub fn end_with_now(&mut self, row: &[Cell], from: u64, tick: u64)
        requires later { self.old.first + self.old.ticks < tick }
        requires in_range { tick < 2 ^ 63 }
        requires from { from ≤ tick }
        requires near { tick < max self.old.first from + MOST_TICKS }
        requires wide { length row.now ≡ self.old.slots }
        requires small { AreSmall row.now }
        requires room { HasRoom self.old (tick - max self.old.first from) }
        ensures stands { (slots : List SlotKey) (h : History) (m : ℕ) → IsHistory h → tick_of m ≡ tick → AreOpen slots h row.now
            → CellsStand slots h self.old → CellsStand slots (h ▷ Now m) self.new }
        ensures slots { self.new.slots ≡ self.old.slots }
        ensures from { self.new.first ≡ max self.old.first from }
        ensures reach { self.new.first + self.new.ticks ≡ tick }
        ensures room { vec_capacity self.old.cells ≤ vec_capacity self.new.cells }
    {
        let open_tick = self.first + self.ticks;
        self.forget_before(from);
        if from <= open_tick {
            self.add(row);
        }
        self.add_blank(tick - self.first - self.ticks);
    }

    /// A start of the program in a later tick cuts the open one and those between. From the tick `from` on rows are kept.
    pub fn end_with_boot(&mut self, from: u64, tick: u64)
        requires later { self.old.first + self.old.ticks ≤ tick }
        requires in_range { tick < 2 ^ 63 }
        requires from { from ≤ tick }
        requires near { tick < max self.old.first from + MOST_TICKS }
        requires room { HasRoom self.old (tick - max self.old.first from) }
        ensures stands { (slots : List SlotKey) (h : History) (m : ℕ) → IsHistory h → last_moment h ≤ m → tick_of m ≡ tick
            → CellsStand slots h self.old → CellsStand slots (h ▷ Boot m) self.new }
        ensures slots { self.new.slots ≡ self.old.slots }
        ensures from { self.new.first ≡ max self.old.first from }
        ensures reach { self.new.first + self.new.ticks ≡ tick }
        ensures room { vec_capacity self.old.cells ≤ vec_capacity self.new.cells }
    {
        self.forget_before(from);
        self.add_blank(tick - self.first - self.ticks);
    }

    /// A request, or a start of the program, ends the open tick, whose cells these are, and those between.
    pub fn end_with(&mut self, boot: bool, row: &[Cell], from: u64, tick: u64)
        requires later { self.old.first + self.old.ticks ≤ tick }
        requires after { boot ≡ false → self.old.first + self.old.ticks < tick }
        requires in_range { tick < 2 ^ 63 }
        requires from { from ≤ tick }
        requires near { tick < max self.old.first from + MOST_TICKS }
        requires wide { length row.now ≡ self.old.slots }
        requires small { AreSmall row.now }
        requires room { HasRoom self.old (tick - max self.old.first from) }
        ensures stands { (slots : List SlotKey) (h : History) (m : ℕ) → IsHistory h → last_moment h ≤ m → tick_of m ≡ tick
            → AreOpen slots h row.now → CellsStand slots h self.old → CellsStand slots (h ▷ ended_by boot m) self.new }
        ensures slots { self.new.slots ≡ self.old.slots }
        ensures from { self.new.first ≡ max self.old.first from }
        ensures reach { self.new.first + self.new.ticks ≡ tick }
        ensures room { vec_capacity self.old.cells ≤ vec_capacity self.new.cells }
    {
        if boot {
            self.end_with_boot(from, tick);
        } else {
            self.end_with_now(row, from, tick);
        }
    }

    /// How many slots there are.
    pub fn slots(&self) -> usize
        ensures { result ≡ self.now.slots }
    {
        self.slots
    }

    /// The first tick of which cells are kept.
    pub fn first(&self) -> u64
        ensures { result ≡ self.now.first }
    {
        self.first
    }

    /// The tick after the last one of which cells are kept.
    pub fn end(&self) -> u64
        ensures { result ≡ self.now.first + self.now.ticks }
    {
        self.first + self.ticks
    }

    /// The cell of a slot in a tick: that of `row` in the tick after the kept ones, and one without values in all others.
    pub fn known(&self, row: &[Cell], slot: usize, tick: u64) -> Cell
        requires slot { slot < self.now.slots }
        requires wide { length row.now ≡ self.now.slots }
        requires small { AreSmall row.now }
        ensures cell { result ≡ known_cell self.now row.now slot tick }
        ensures small { IsSmall result }
    {
        if tick < self.first {
            Cell::empty()
        } else if tick < self.first + self.ticks {
            self.cells[(tick - self.first) as usize * self.slots + slot]
        } else if tick == self.first + self.ticks {
            row[slot]
        } else {
            Cell::empty()
        }
    }

    // Drops the rows of the ticks before this one.
    fn forget_before(&mut self, from: u64)
        requires { from < 2 ^ 63 }
        ensures slots { self.new.slots ≡ self.old.slots }
        ensures first { self.new.first ≡ max self.old.first from }
        ensures ticks { self.new.ticks ≡ self.old.ticks - (from - self.old.first) }
        ensures cells { self.new.cells.items ≡ drop ((from - self.old.first) * self.old.slots) self.old.cells.items }
        ensures room { vec_capacity self.new.cells ≡ vec_capacity self.old.cells }
    {
        let gone = from.saturating_sub(self.first).min(self.ticks);
        forget_front(&mut self.cells, gone as usize * self.slots);
        self.first = self.first.max(from);
        self.ticks -= gone;
    }

    // The row of one more tick.
    fn add(&mut self, row: &[Cell])
        requires few { self.old.ticks + 1 < MOST_TICKS }
        requires in_range { self.old.first + self.old.ticks + 1 < 2 ^ 63 }
        requires wide { length row.now ≡ self.old.slots }
        requires small { AreSmall row.now }
        requires room { HasRoom self.old (self.old.ticks + 1) }
        ensures slots { self.new.slots ≡ self.old.slots }
        ensures first { self.new.first ≡ self.old.first }
        ensures ticks { self.new.ticks ≡ self.old.ticks + 1 }
        ensures cells { self.new.cells.items ≡ self.old.cells.items ++ row.now }
        ensures room { vec_capacity self.old.cells ≤ vec_capacity self.new.cells }
    {
        append(&mut self.cells, row);
        self.ticks += 1;
    }

    // Rows without values, for so many more ticks.
    fn add_blank(&mut self, more: u64)
        requires few { self.old.ticks + more < MOST_TICKS }
        requires in_range { self.old.first + self.old.ticks + more < 2 ^ 63 }
        requires room { HasRoom self.old (self.old.ticks + more) }
        ensures slots { self.new.slots ≡ self.old.slots }
        ensures first { self.new.first ≡ self.old.first }
        ensures ticks { self.new.ticks ≡ self.old.ticks + more }
        ensures cells { self.new.cells.items ≡ self.old.cells.items ++ replicate (more * self.old.slots) (cell_of []) }
        ensures room { vec_capacity self.old.cells ≤ vec_capacity self.new.cells }
    {
        append_blank(&mut self.cells, more as usize * self.slots);
        self.ticks += more;
    }
}
