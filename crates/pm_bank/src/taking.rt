//! Taking the cells of an ended epoch, word by word.
ghost use Rattle.std.specs.Prelude.{◌≡◌, ℕ, ◌+◌, ◌-◌, ◌*◌, ◌<◌, ◌≤◌, ◌⊎◌, ◌≢◌, Some, length, slice_index_or, sum_by, IfOk, IfErr, IfSome, IsOk, IsSome, OnErr};
ghost use Rattle.pm_meas.specs.declared.cell.Cell.{Cell};
ghost use Rattle.pm_meas.specs.Cell.{cell_of};
ghost use Rattle.pm_bank.specs.Entries.{cell_in, AreCells, AreSmall};
ghost use Rattle.pm_bank.specs.Steps.{IsKeeper, IsTaking};
ghost use Rattle.pm_bank.specs.Run.{clears_cell, IsClearedUpTo};
ghost use Rattle.pm_bank.specs.Views.{looking, with_taken};

use crate::bank::Bank;
use crate::error::Draining;
use crate::keeper::Keeper;
use crate::keeper_steps::{look, take_leaves, take_word};
use crate::plays::Counters;
use crate::view::View;
use atomic_table::Seat;
use pm_meas::{Cell, Tally};
use std::marker::Brand;

/// The four words of a slot.
fn take_slot(table: &Counters, seat: &mut Seat<(), View>, ended: u32, slot: u32) -> Cell
    requires table { (seat.old.table_id ≡ table.now.shared.table_id) × (table.now.shared.table_id.words ≡ 8 + 8 * table.now.shared.key) }
    requires taking { IsTaking seat.old.me.0 ended }
    requires turn { (seat.old.me.0.numbers.cleared ≡ 4 * slot) × (slot < table.now.shared.key) }
    requires small { AreSmall seat.old.me.0.entries }
    ensures seat { (seat.new.table_id ≡ seat.old.table_id) × (seat.new.me ≡ (clears_cell slot result seat.old.me.0, seat.old.me.1)) }
    ensures folds { seat.old.me.0.numbers.older ≡ 0 → result ≡ cell_in ended slot seat.old.me.0.entries }
{
    let n = take_word::<Brand>(table, seat, ended, slot, 0, 0);
    let sum = take_word::<Brand>(table, seat, ended, slot, 1, 0);
    let max = take_word::<Brand>(table, seat, ended, slot, 2, 0) as u32;
    let min = take_word::<Brand>(table, seat, ended, slot, 3, 4_294_967_295) as u32;
    Cell { n, sum, max, min }
}

/// The words of all slots, into the tally.
fn take_slots(table: &Counters, seat: &mut Seat<(), View>, ended: u32, tally: &mut Tally)
    requires table { (seat.old.table_id ≡ table.now.shared.table_id) × (table.now.shared.table_id.words ≡ 8 + 8 * table.now.shared.key) }
    requires taking { IsTaking seat.old.me.0 ended }
    requires turn { (seat.old.me.0.numbers.cleared ≡ 0) × (length tally.old ≡ table.now.shared.key) }
    requires small { AreSmall seat.old.me.0.entries }
    ensures same { (seat.new.table_id ≡ seat.old.table_id) × (length tally.new ≡ length tally.old) × (seat.new.me.1 ≡ seat.old.me.1) }
    ensures taken { IsClearedUpTo (length tally.old) ended seat.old.me.0 seat.new.me.0 tally.new }
{
    for s in 0..tally.len() {
        let cell = take_slot(table, seat, ended, s);
        tally.set(s, cell);
    }
}

impl Keeper {
    /// Puts the cells of the ended epoch into the tally, once each event that arrived in it has left. `tally` is of as many slots as the bank.
    pub fn take(&mut self, bank: &Bank, tally: &mut Tally) -> Result<(), Draining>
        requires bank { self.old.bank ≡ bank.now.id }
        requires ended { IsSome self.old.pending }
        requires size { length tally.old ≡ bank.now.slots }
        ensures size { length tally.new ≡ length tally.old }

        // The cells have as many events as arrived, and where no pass is out that was hired in the ended epoch or earlier, they are the folds of what was met.
        ensures taken { IfOk result (λ _. IfSome self.old.pending (λ n. (self.new ≡ with_taken self.old n tally.new) × (sum_by (λ (c : Cell). c.n) tally.new ≡ n))) }
        ensures folds { IfOk result (λ _. self.old.older ≡ 0 → AreCells (self.old.epoch - 1) self.old.met tally.new) }

        // Fewer events had left than had arrived.
        ensures draining { IfErr result (λ d. (self.old.pending ≡ Some d.arrived) × (d.left < d.arrived) × (self.new ≡ looking self.old d.left) × (tally.new ≡ tally.old)) }
        ensures drained { self.old.older ≡ 0 → IsOk result }
        ensures alone { self.old.out ≡ 0 → IsOk result }
    {
        let arrived = self.pending.unwrap();
        let ended = self.epoch - 1;
        let left = look(&bank.table, &mut self.seat, ended);
        if left != arrived as u64 {
            return Err(Draining {
                arrived,
                left: left as u32,
            });
        }
        take_slots(&bank.table, &mut self.seat, ended, tally);
        take_leaves::<Brand>(&bank.table, &mut self.seat, ended, tally);
        self.pending = None;
        Ok(())
    }
}
