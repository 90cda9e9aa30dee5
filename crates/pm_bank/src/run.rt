//! A run of events, folded in plain memory before it arrives, and laid into the words slot by slot.
ghost use Rattle.std.specs.Prelude.{◌≡◌, ℕ, ◌+◌, ◌*◌, ◌<◌, ◌≤◌, [], ◌++◌, length, slice_index_or, IfOk};
ghost use Rattle.pm_bank.specs.declared.bank.TheConstants.{MAX_SLOTS};
ghost use Rattle.pm_meas.specs.Cell.{cell_of};
ghost use Rattle.pm_bank.specs.Entries.{AreSound, AreUpTo, stamped};
ghost use Rattle.pm_bank.specs.Steps.{passing, IsIdle, IsVisiting};
ghost use Rattle.pm_bank.specs.Run.{AreBlank, AreRunCells, IsFilled, lays_cell};

use crate::pass_steps::{add, arrive, leave, lower, raise};
use crate::plays::{Counters, Hits};
use crate::view::{Hit, View};
use atomic_table::Seat;
use pm_meas::Cell;
use std::alloc::{AllocError, Global};
use std::marker::{Brand, Model};

/// Plain memory in which runs are folded, a cell for each slot.
#[derive(Drop)]
pub struct Scratch {
    pub(crate) cells: Vec<Cell>,
}

impl Model for Scratch {
    ghost use Rattle.std.specs.Prelude.{ℕ, length};
    ghost use Rattle.pm_bank.specs.Run.{AreBlank};

    ghost Value = { ℕ };

    ghost view = { λ s. length s.cells.items };

    ghost invariant = { λ s. AreBlank s.cells.items };
}

impl Scratch {
    /// Memory for so many slots.
    pub fn new(alloc: Global, slots: u32) -> Result<Scratch, AllocError>
        ensures { IfOk result (λ s. s ≡ slots) }
    {
        let cells = vec![in alloc; Cell::empty(); slots as usize]?;
        Ok(Scratch { cells })
    }
}

/// Folds a run into empty cells.
fn fold_run(hits: &[Hit], cells: &mut [Cell])
    requires blank { AreBlank cells.old }
    requires sound { AreSound (length cells.old) hits.now }
    requires few { length hits.now ≤ 4294967295 }
    ensures size { length cells.new ≡ length cells.old }
    ensures folds { AreRunCells hits.now cells.new }
{
    for i in 0..hits.len() {
        let hit = hits[i];
        cells[hit.slot as usize].add(hit.value);
    }
}

/// The four steps of one slot.
pub(crate) fn lay_cell(
    table: &Counters,
    seat: &mut Seat<(), View>,
    epoch: u32,
    slot: u32,
    cell: Cell,
)
    requires table { (seat.old.table_id ≡ table.now.shared.table_id) × (table.now.shared.table_id.words ≡ 8 + 8 * table.now.shared.key) }
    requires slot { slot < table.now.shared.key }
    requires visit { IsVisiting seat.old.me.0 epoch }
    ensures { (seat.new.table_id ≡ seat.old.table_id) × (seat.new.me ≡ (lays_cell slot cell seat.old.me.0, seat.old.me.1)) }
{
    add::<Brand>(table, seat, epoch, 0, slot, cell.n);
    add::<Brand>(table, seat, epoch, 1, slot, cell.sum);
    raise::<Brand>(table, seat, epoch, slot, cell.max);
    lower::<Brand>(table, seat, epoch, slot, cell.min);
}

/// Lays each slot that the run touched, and empties its cell.
fn lay_cells<H: Hits>(table: &Counters, seat: &mut Seat<(), View>, epoch: u32, cells: &mut [Cell])
    requires table { (seat.old.table_id ≡ table.now.shared.table_id) × (table.now.shared.table_id.words ≡ 8 + 8 * table.now.shared.key) }
    requires size { (length cells.old ≡ table.now.shared.key) × (table.now.shared.key ≤ MAX_SLOTS) }
    requires visit { IsVisiting seat.old.me.0 epoch × (seat.old.me.0.parts ≡ []) }
    requires folds { AreRunCells H.hits cells.old }
    ensures same { (seat.new.table_id ≡ seat.old.table_id) × (length cells.new ≡ length cells.old) }
    ensures seat { seat.new.me ≡ (passing seat.old.me.0.numbers seat.old.me.0.since seat.old.me.0.quota epoch seat.old.me.0.count seat.new.me.0.parts seat.old.me.0.entries, seat.old.me.1) }
    ensures filled { IsFilled (length cells.old) H.hits seat.new.me.0.parts }
    ensures blank { AreBlank cells.new }
{
    for s in 0..cells.len() {
        let cell = cells[s];
        if cell.n != 0 {
            lay_cell(table, seat, epoch, s as u32, cell);
            cells[s] = Cell::empty();
        }
    }
}

/// A run that is folded: its events arrive by one step, are laid slot by slot, and leave by one step.
pub(crate) fn count_cells<H: Hits>(
    table: &Counters,
    seat: &mut Seat<(), View>,
    count: u32,
    cells: &mut [Cell],
) -> u32
    requires table { (seat.old.table_id ≡ table.now.shared.table_id) × (table.now.shared.table_id.words ≡ 8 + 8 * table.now.shared.key) }
    requires size { (length cells.old ≡ table.now.shared.key) × (table.now.shared.key ≤ MAX_SLOTS) }
    requires idle { IsIdle seat.old.me.0 }
    requires count { (0 < count) × (count ≡ length H.hits) }
    requires quota { length seat.old.me.0.entries + count ≤ seat.old.me.0.quota }
    requires folds { AreRunCells H.hits cells.old }
    requires sound { AreSound table.now.shared.key H.hits }
    ensures same { (seat.new.table_id ≡ seat.old.table_id) × (length cells.new ≡ length cells.old) }
    ensures seat { seat.new.me ≡ (passing seat.old.me.0.numbers seat.old.me.0.since seat.old.me.0.quota 0 0 [] (seat.old.me.0.entries ++ stamped result H.hits), seat.old.me.1) }
    ensures late { (seat.old.me.0.since ≤ result) × AreUpTo result seat.old.me.0.entries }
    ensures blank { AreBlank cells.new }
{
    let epoch = arrive(table, seat, count);
    lay_cells::<H>(table, seat, epoch, cells);
    leave::<H>(table, seat, epoch, count);
    epoch
}

/// Folds a run of at least one event, and counts it.
pub(crate) fn count_hits<H: Hits>(
    table: &Counters,
    seat: &mut Seat<(), View>,
    hits: &[Hit],
    cells: &mut [Cell],
) -> u32
    requires table { (seat.old.table_id ≡ table.now.shared.table_id) × (table.now.shared.table_id.words ≡ 8 + 8 * table.now.shared.key) }
    requires size { (length cells.old ≡ table.now.shared.key) × (table.now.shared.key ≤ MAX_SLOTS) }
    requires idle { IsIdle seat.old.me.0 }
    requires hits { (0 < length hits.now) × (length hits.now ≤ 4294967295) × (H.hits ≡ hits.now) }
    requires quota { length seat.old.me.0.entries + length hits.now ≤ seat.old.me.0.quota }
    requires blank { AreBlank cells.old }
    requires sound { AreSound table.now.shared.key hits.now }
    ensures same { (seat.new.table_id ≡ seat.old.table_id) × (length cells.new ≡ length cells.old) }
    ensures seat { seat.new.me ≡ (passing seat.old.me.0.numbers seat.old.me.0.since seat.old.me.0.quota 0 0 [] (seat.old.me.0.entries ++ stamped result hits.now), seat.old.me.1) }
    ensures late { (seat.old.me.0.since ≤ result) × AreUpTo result seat.old.me.0.entries }
    ensures blank { AreBlank cells.new }
{
    fold_run(hits, cells);
    count_cells::<H>(table, seat, hits.len() as u32, cells)
}
