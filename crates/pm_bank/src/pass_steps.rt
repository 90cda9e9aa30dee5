//! The atomic steps of a pass: arrive, add, raise, lower and leave.
ghost use Rattle.std.specs.Prelude.{◌≡◌, ℕ, ◌+◌, ◌-◌, ◌*◌, ◌/◌, ◌<◌, ◌≤◌, length};
ghost use Rattle.pm_bank.specs.Entries.{AreSound, AreUpTo};
ghost use Rattle.pm_bank.specs.Steps.{arrived, glanced, lays, left, IsIdle, IsVisiting};
ghost use Rattle.pm_bank.specs.Run.{IsFilled};

use crate::plays::{Arrive, Counters, Glance, Hits, Laid, Lay, Leave};
use crate::view::View;
use atomic_table::Seat;

/// So many events arrive, and the gate's epoch is theirs.
pub(crate) fn arrive(table: &Counters, seat: &mut Seat<(), View>, count: u32) -> u32
    requires table { (seat.old.table_id ≡ table.now.shared.table_id) × (table.now.shared.table_id.words ≡ 8 + 8 * table.now.shared.key) }
    requires idle { IsIdle seat.old.me.0 }
    requires quota { length seat.old.me.0.entries + count ≤ seat.old.me.0.quota }
    ensures seat { (seat.new.table_id ≡ seat.old.table_id) × (seat.new.me ≡ (arrived result count seat.old.me.0, seat.old.me.1)) }
    ensures late { (seat.old.me.0.since ≤ result) × AreUpTo result seat.old.me.0.entries }
{
    let found = table.shared.fetch_add::<Arrive>(seat, 0, count as u64);
    (found / 4_294_967_296) as u32
}

/// The epoch in which an event would arrive now, which the pass has then seen.
pub(crate) fn glance(table: &Counters, seat: &mut Seat<(), View>) -> u32
    requires table { (seat.old.table_id ≡ table.now.shared.table_id) × (table.now.shared.table_id.words ≡ 8 + 8 * table.now.shared.key) }
    requires idle { IsIdle seat.old.me.0 }
    requires quota { length seat.old.me.0.entries ≤ seat.old.me.0.quota }
    ensures seat { (seat.new.table_id ≡ seat.old.table_id) × (seat.new.me ≡ (glanced result seat.old.me.0, seat.old.me.1)) }
    ensures late { (seat.old.me.0.since ≤ result) × AreUpTo result seat.old.me.0.entries }
{
    let found = table.shared.load::<Glance>(seat, 0);
    (found / 4_294_967_296) as u32
}

/// Adds to how many events a slot has, or to their sum.
pub(crate) fn add<P: Laid>(
    table: &Counters,
    seat: &mut Seat<(), View>,
    epoch: u32,
    word: u32,
    slot: u32,
    amount: u64,
)
    requires table { (seat.old.table_id ≡ table.now.shared.table_id) × (table.now.shared.table_id.words ≡ 8 + 8 * table.now.shared.key) }
    requires slot { (slot < table.now.shared.key) × (word < 2) }
    requires visit { IsVisiting seat.old.me.0 epoch }
    requires laid { (word ≡ P.word) × (slot ≡ P.slot) × (amount ≡ P.amount) }
    ensures { (seat.new.table_id ≡ seat.old.table_id) × (seat.new.me ≡ (lays word slot amount seat.old.me.0, seat.old.me.1)) }
{
    let place = 8 + 8 * slot as usize + 4 * (epoch % 2) as usize + word as usize;
    table.shared.fetch_add::<Lay<P>>(seat, place, amount);
}

/// Raises the greatest value of a slot.
pub(crate) fn raise<P: Laid>(
    table: &Counters,
    seat: &mut Seat<(), View>,
    epoch: u32,
    slot: u32,
    greatest: u32,
)
    requires table { (seat.old.table_id ≡ table.now.shared.table_id) × (table.now.shared.table_id.words ≡ 8 + 8 * table.now.shared.key) }
    requires slot { slot < table.now.shared.key }
    requires visit { IsVisiting seat.old.me.0 epoch }
    requires laid { (2 ≡ P.word) × (slot ≡ P.slot) × (greatest ≡ P.amount) }
    ensures { (seat.new.table_id ≡ seat.old.table_id) × (seat.new.me ≡ (lays 2 slot greatest seat.old.me.0, seat.old.me.1)) }
{
    let place = 8 + 8 * slot as usize + 4 * (epoch % 2) as usize + 2;
    table
        .shared
        .fetch_max::<Lay<P>>(seat, place, greatest as u64);
}

/// Lowers the least value of a slot.
pub(crate) fn lower<P: Laid>(
    table: &Counters,
    seat: &mut Seat<(), View>,
    epoch: u32,
    slot: u32,
    least: u32,
)
    requires table { (seat.old.table_id ≡ table.now.shared.table_id) × (table.now.shared.table_id.words ≡ 8 + 8 * table.now.shared.key) }
    requires slot { slot < table.now.shared.key }
    requires visit { IsVisiting seat.old.me.0 epoch }
    requires laid { (3 ≡ P.word) × (slot ≡ P.slot) × (4294967295 - least ≡ P.amount) }
    ensures { (seat.new.table_id ≡ seat.old.table_id) × (seat.new.me ≡ (lays 3 slot (4294967295 - least) seat.old.me.0, seat.old.me.1)) }
{
    let place = 8 + 8 * slot as usize + 4 * (epoch % 2) as usize + 3;
    table.shared.fetch_min::<Lay<P>>(seat, place, least as u64);
}

/// The events of an open visit leave, and are entries.
pub(crate) fn leave<H: Hits>(table: &Counters, seat: &mut Seat<(), View>, epoch: u32, count: u32)
    requires table { (seat.old.table_id ≡ table.now.shared.table_id) × (table.now.shared.table_id.words ≡ 8 + 8 * table.now.shared.key) }
    requires visit { IsVisiting seat.old.me.0 epoch }
    requires count { (count ≡ seat.old.me.0.count) × (count ≡ length H.hits) }
    requires filled { IsFilled table.now.shared.key H.hits seat.old.me.0.parts }
    requires sound { AreSound table.now.shared.key H.hits }
    ensures { (seat.new.table_id ≡ seat.old.table_id) × (seat.new.me ≡ (left H.hits seat.old.me.0, seat.old.me.1)) }
{
    let place = 1 + (epoch % 2) as usize;
    table
        .shared
        .fetch_add::<Leave<H>>(seat, place, count as u64);
}
