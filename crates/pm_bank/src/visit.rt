//! A visit: one event that arrived, and hasn't left yet.
ghost use Rattle.std.specs.Prelude.{◌≡◌, ℕ, suc, ◌+◌, ◌*◌, ◌<◌, ◌≤◌, [], ◌∷◌, ◌++◌, length};
ghost use Rattle.pm_bank.specs.Entries.{AreUpTo, stamped};
ghost use Rattle.pm_bank.specs.Steps.{IsIdle, IsVisit, IsVisiting, passing};
ghost use Rattle.pm_bank.specs.Views.{with_hits};

use crate::bank::Bank;
use crate::pass::Pass;
use crate::pass_steps::{arrive, leave};
use crate::plays::{Counters, Hits};
use crate::run::lay_cell;
use crate::view::View;
use atomic_table::Seat;
use pm_meas::{Cell, MAX_VALUE};
use std::marker::{Brand, Model};

/// An event that arrived in an epoch. A visit that is dropped counts as open for good.
#[derive(Drop)]
pub struct Visit {
    seat: Seat<(), View>,
    since: u32,
    quota: u32,
    left: u32,
    epoch: u32,
}

impl Model for Visit {
    ghost use Rattle.pm_bank.specs.Views.{VisitView};
    ghost use Rattle.pm_bank.specs.Steps.{IsVisit};

    ghost Value = { VisitView };

    ghost view = { λ v. record { pass = record { bank = v.seat.table_id; since = v.since; quota = v.quota; entries = v.seat.me.0.entries; looks = v.seat.me.0.numbers.looks; seen = v.seat.me.0.numbers.seen }; epoch = v.epoch } };

    ghost invariant = { λ v. IsVisit v.seat.me v.since v.quota v.left v.epoch };
}

impl Visit {
    /// The visit of a seat at which one event arrived.
    pub(crate) fn of(seat: Seat<(), View>, since: u32, quota: u32, left: u32, epoch: u32) -> Visit
        requires { IsVisit seat.me since quota left epoch }
        ensures pass { result.pass ≡ record { bank = seat.table_id; since = since; quota = quota; entries = seat.me.0.entries; looks = seat.me.0.numbers.looks; seen = seat.me.0.numbers.seen } }
        ensures epoch { result.epoch ≡ epoch }
    {
        Visit {
            seat,
            since,
            quota,
            left,
            epoch,
        }
    }

    /// The epoch of the arrival.
    pub fn epoch(&self) -> u32
        ensures { result ≡ self.now.epoch }
    {
        self.epoch
    }

    /// Counts the event, and gives the pass back.
    pub fn finish(self, bank: &Bank, slot: u32, value: u32) -> Pass
        requires bank { self.pass.bank ≡ bank.now.id }
        requires slot { slot < bank.now.slots }
        requires value { value ≤ MAX_VALUE }
        ensures { result ≡ with_hits self.pass self.epoch (record { slot = slot; value = value } ∷ []) }
    {
        let Visit {
            mut seat,
            since,
            quota,
            left,
            epoch,
        } = self;
        finish_one::<Brand>(&bank.table, &mut seat, epoch, slot, value);
        Pass {
            seat,
            since,
            quota,
            left,
        }
    }
}

/// Lays the one event of an open visit, and leaves.
fn finish_one<H: Hits>(
    table: &Counters,
    seat: &mut Seat<(), View>,
    epoch: u32,
    slot: u32,
    value: u32,
)
    requires table { (seat.old.table_id ≡ table.now.shared.table_id) × (table.now.shared.table_id.words ≡ 8 + 8 * table.now.shared.key) }
    requires visit { seat.old.me.0 ≡ passing seat.old.me.0.numbers seat.old.me.0.since seat.old.me.0.quota epoch 1 [] seat.old.me.0.entries }
    requires slot { slot < table.now.shared.key }
    requires value { value ≤ MAX_VALUE }
    requires hits { H.hits ≡ record { slot = slot; value = value } ∷ [] }
    ensures seat { (seat.new.table_id ≡ seat.old.table_id) × (seat.new.me ≡ (passing seat.old.me.0.numbers seat.old.me.0.since seat.old.me.0.quota 0 0 [] (seat.old.me.0.entries ++ stamped epoch (record { slot = slot; value = value } ∷ [])), seat.old.me.1)) }
{
    let cell = Cell {
        n: 1,
        sum: value as u64,
        max: value,
        min: value,
    };
    lay_cell(table, seat, epoch, slot, cell);
    leave::<H>(table, seat, epoch, 1);
}

/// One event arrives, is laid, and leaves.
pub(crate) fn count_one<H: Hits>(
    table: &Counters,
    seat: &mut Seat<(), View>,
    slot: u32,
    value: u32,
) -> u32
    requires table { (seat.old.table_id ≡ table.now.shared.table_id) × (table.now.shared.table_id.words ≡ 8 + 8 * table.now.shared.key) }
    requires idle { IsIdle seat.old.me.0 }
    requires quota { suc (length seat.old.me.0.entries) ≤ seat.old.me.0.quota }
    requires slot { slot < table.now.shared.key }
    requires value { value ≤ MAX_VALUE }
    requires hits { H.hits ≡ record { slot = slot; value = value } ∷ [] }
    ensures seat { (seat.new.table_id ≡ seat.old.table_id) × (seat.new.me ≡ (passing seat.old.me.0.numbers seat.old.me.0.since seat.old.me.0.quota 0 0 [] (seat.old.me.0.entries ++ stamped result (record { slot = slot; value = value } ∷ [])), seat.old.me.1)) }
    ensures late { (seat.old.me.0.since ≤ result) × AreUpTo result seat.old.me.0.entries }
{
    let epoch = arrive(table, seat, 1);
    finish_one::<H>(table, seat, epoch, slot, value);
    epoch
}
