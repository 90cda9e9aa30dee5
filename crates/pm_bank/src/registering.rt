//! The registering form of a run: of each slot every n-th event is counted (discrete event registration, TS 32.404).
ghost use Rattle.std.specs.Prelude.{◌≡◌, ℕ, ◌+◌, ◌*◌, ◌^◌, ◌<◌, ◌≤◌, ◌↔◌, All, [], ◌++◌, length, slice_index, slice_index_or, slice_set, IfOk, IsErr, OnErr, OnOk};
ghost use Rattle.pm_bank.specs.declared.bank.TheConstants.{MAX_SLOTS};
ghost use Rattle.pm_meas.specs.declared.cell.TheConstants.{MAX_VALUE};
ghost use Rattle.pm_meas.specs.Cell.{cell_of};
ghost use Rattle.pm_bank.specs.Entries.{AreSound, AreUpTo, stamped};
ghost use Rattle.pm_bank.specs.Registering.{registered, with_registered, AreMoved, IsRegistering};
ghost use Rattle.pm_bank.specs.Run.{AreBlank};
ghost use Rattle.pm_bank.specs.Steps.{passing, IsIdle};
ghost use Rattle.pm_bank.specs.Views.{with_run, Follows};

use crate::bank::Bank;
use crate::error::Spent;
use crate::pass::Pass;
use crate::pass_steps::glance;
use crate::plays::{Counters, Hits};
use crate::run::{Scratch, count_cells};
use crate::view::{Hit, View};
use atomic_table::Seat;
use pm_meas::{Cell, MAX_VALUE};
use std::marker::Brand;

/// Moves the start of an event's slot on, and folds the event where it is registered.
fn register(hit: Hit, every: &[u32], start: &mut [u64], cells: &mut [Cell])
    requires slot { (hit.slot < length every.now) × (hit.slot < length start.old) × (hit.slot < length cells.old) }
    requires every { 0 < slice_index every.now hit.slot }
    requires start { slice_index start.old hit.slot < 18446744073709551615 }
    requires value { hit.value ≤ MAX_VALUE }
    requires room { let cell = slice_index_or cells.old hit.slot (cell_of []) in (cell.n < 4294967295) × (cell.sum ≤ MAX_VALUE * cell.n) }
    ensures start { start.new ≡ slice_set start.old hit.slot (slice_index start.old hit.slot + 1) }
    ensures cells { cells.new ≡ with_registered every.now start.old cells.old hit }
{
    let slot = hit.slot as usize;
    start[slot] += 1;
    if start[slot] % every[slot] as u64 == 0 {
        cells[slot].add(hit.value);
    }
}

/// Moves the starts on by a run, and folds its registered events into empty cells.
fn fold_registered(hits: &[Hit], every: &[u32], start: &mut [u64], cells: &mut [Cell])
    requires size { (length every.now ≡ length start.old) × (length cells.old ≡ length start.old) }
    requires every { All (λ n. 0 < n) every.now }
    requires start { All (λ n. n ≤ 2 ^ 63) start.old }
    requires few { length hits.now ≤ 4294967295 }
    requires sound { AreSound (length start.old) hits.now }
    requires blank { AreBlank cells.old }
    ensures registered { IsRegistering (length hits.now) every.now start.old hits.now start.new cells.new }
{
    for i in 0..hits.len() {
        register(hits[i], every, start, cells);
    }
}

/// Registers a run of which at least one event is registered, and counts these.
fn count_some<H: Hits>(
    table: &Counters,
    seat: &mut Seat<(), View>,
    hits: &[Hit],
    every: &[u32],
    start: &mut [u64],
    count: u32,
    cells: &mut [Cell],
) -> u32
    requires table { (seat.old.table_id ≡ table.now.shared.table_id) × (table.now.shared.table_id.words ≡ 8 + 8 * table.now.shared.key) }
    requires size { (length cells.old ≡ table.now.shared.key) × (table.now.shared.key ≤ MAX_SLOTS) × (length every.now ≡ table.now.shared.key) × (length start.old ≡ table.now.shared.key) }
    requires idle { IsIdle seat.old.me.0 }
    requires every { All (λ n. 0 < n) every.now }
    requires start { All (λ n. n ≤ 2 ^ 63) start.old }
    requires few { length hits.now ≤ 4294967295 }
    requires sound { AreSound table.now.shared.key hits.now }
    requires hits { H.hits ≡ registered every.now start.old hits.now }
    requires count { (0 < count) × (count ≡ length H.hits) }
    requires quota { length seat.old.me.0.entries + count ≤ seat.old.me.0.quota }
    requires blank { AreBlank cells.old }
    ensures same { (seat.new.table_id ≡ seat.old.table_id) × (length cells.new ≡ length cells.old) × (length start.new ≡ length start.old) }
    ensures seat { seat.new.me ≡ (passing seat.old.me.0.numbers seat.old.me.0.since seat.old.me.0.quota 0 0 [] (seat.old.me.0.entries ++ stamped result H.hits), seat.old.me.1) }
    ensures late { (seat.old.me.0.since ≤ result) × AreUpTo result seat.old.me.0.entries }
    ensures blank { AreBlank cells.new }
    ensures moved { AreMoved start.old hits.now start.new }
{
    fold_registered(hits, every, start, cells);
    count_cells::<H>(table, seat, count, cells)
}

impl Pass {
    /// Counts the registered events of a run, all in one epoch, and answers it. Of each slot every n-th event is registered,
    /// n being the slot's number in `every`, counted on from its number in `start`, which moves on by the run's events.
    /// `count` is how many are registered, and `scratch` is of as many slots as the bank.
    pub fn count_registered(
        &mut self,
        bank: &Bank,
        hits: &[Hit],
        every: &[u32],
        start: &mut [u64],
        count: u32,
        scratch: &mut Scratch,
    ) -> Result<u32, Spent>
        requires bank { self.old.bank ≡ bank.now.id }
        requires scratch { scratch.old ≡ bank.now.slots }
        requires few { length hits.now ≤ 4294967295 }
        requires sound { AreSound bank.now.slots hits.now }
        requires every { (length every.now ≡ bank.now.slots) × All (λ n. 0 < n) every.now }
        requires start { (length start.old ≡ bank.now.slots) × All (λ n. n ≤ 2 ^ 63) start.old }
        requires count { count ≡ length (registered every.now start.old hits.now) }
        ensures counted { IfOk result (λ epoch. (self.new ≡ with_run self.old epoch (registered every.now start.old hits.now)) × Follows self.old epoch) }
        ensures moved { OnOk result (AreMoved start.old hits.now start.new) }
        ensures refused { OnErr result ((self.new ≡ self.old) × (start.new ≡ start.old)) }
        ensures spent { IsErr result ↔ (self.old.quota < length self.old.entries + count) }
        ensures scratch { scratch.new ≡ scratch.old }
    {
        if count > self.left {
            return Err(Spent);
        }
        if count == 0 {
            fold_registered(hits, every, start, scratch.cells.as_mut_slice());
            return Ok(glance(&bank.table, &mut self.seat));
        }
        let epoch = count_some::<Brand>(
            &bank.table,
            &mut self.seat,
            hits,
            every,
            start,
            count,
            scratch.cells.as_mut_slice(),
        );
        self.left -= count;
        Ok(epoch)
    }
}
