//! The atomic steps of the keeper: hire, meet, settle, flip, look and take.
ghost use Rattle.std.specs.Prelude.{◌≡◌, ℕ, suc, ◌+◌, ◌*◌, ◌<◌, ◌≤◌, [], length, slice_index_or};
ghost use Rattle.pm_meas.specs.Cell.{cell_of};
ghost use Rattle.pm_bank.specs.Words.{close, exact, fold_of, found_at, word_of};
ghost use Rattle.pm_bank.specs.Steps.{cleared, hired, hires, meets, Flips, IsIdle, IsKeeper, IsSettled, IsTaking, Looks, Settles, TakesLeaves};

use crate::plays::{
    Counters, Flip, Found, Hire, Laid, Look, Meet, Quota, Settle, TakeCell, TakeLeaves,
};
use crate::view::View;
use atomic_table::Seat;
use pm_meas::Tally;

/// Cuts a new pass off the keeper.
pub(crate) fn cut_off<Q: Quota>(
    table: &Counters,
    seat: &mut Seat<(), View>,
    quota: u32,
) -> Seat<(), View>
    requires table { (seat.old.table_id ≡ table.now.shared.table_id) × (table.now.shared.table_id.words ≡ 8 + 8 * table.now.shared.key) }
    requires keeper { IsKeeper seat.old.me.0 × IsSettled seat.old.me.0.numbers }
    requires quota { quota ≡ Q.quota }
    requires room { (seat.old.me.0.numbers.quotas + seat.old.me.0.numbers.met) + quota ≤ 1073741824 }
    ensures keeper { (seat.new.table_id ≡ seat.old.table_id) × (seat.new.me ≡ (hires quota seat.old.me.0, seat.old.me.1)) }
    ensures pass { (result.table_id ≡ seat.old.table_id) × (result.me ≡ (hired quota seat.old.me.0, [])) }
{
    table.shared.split_seat::<Hire<Q>>(seat)
}

/// Joins a pass to the keeper.
pub(crate) fn absorb(table: &Counters, seat: &mut Seat<(), View>, pass: Seat<(), View>)
    requires table { (seat.old.table_id ≡ table.now.shared.table_id) × (pass.table_id ≡ table.now.shared.table_id) × (table.now.shared.table_id.words ≡ 8 + 8 * table.now.shared.key) }
    requires keeper { IsKeeper seat.old.me.0 × IsSettled seat.old.me.0.numbers }
    requires pass { (pass.me.1 ≡ []) × IsIdle pass.me.0 × (length pass.me.0.entries ≤ pass.me.0.quota) }
    ensures { (seat.new.table_id ≡ seat.old.table_id) × (seat.new.me ≡ (meets seat.old.me.0 pass.me.0, seat.old.me.1)) }
{
    table.shared.join_seat::<Meet>(seat, pass);
}

/// A join tells nothing, so a load counts the pass off.
pub(crate) fn settle(table: &Counters, seat: &mut Seat<(), View>)
    requires table { (seat.old.table_id ≡ table.now.shared.table_id) × (table.now.shared.table_id.words ≡ 8 + 8 * table.now.shared.key) }
    requires keeper { IsKeeper seat.old.me.0 }
    ensures { (seat.new.table_id ≡ seat.old.table_id) × Settles seat.old.me.0 seat.new.me.0 × (seat.new.me.1 ≡ seat.old.me.1) }
{
    table.shared.load::<Settle>(seat, 0);
}

/// The gate goes to the next epoch.
pub(crate) fn swap_gate(table: &Counters, seat: &mut Seat<(), View>, epoch: u32) -> u64
    requires table { (seat.old.table_id ≡ table.now.shared.table_id) × (table.now.shared.table_id.words ≡ 8 + 8 * table.now.shared.key) }
    requires keeper { IsKeeper seat.old.me.0 × IsSettled seat.old.me.0.numbers }
    requires epoch { (epoch ≡ seat.old.me.0.numbers.epoch) × (epoch < 4294967295) }
    requires taken { seat.old.me.0.numbers.untaken ≡ 0 }
    ensures { (seat.new.table_id ≡ seat.old.table_id) × Flips seat.old.me.0 result seat.new.me.0 × (seat.new.me.1 ≡ seat.old.me.1) }
{
    let next = (epoch as u64 + 1) * 4_294_967_296;
    table.shared.swap::<Flip>(seat, 0, next)
}

/// The count of leaves of the ended epoch.
pub(crate) fn look(table: &Counters, seat: &mut Seat<(), View>, ended: u32) -> u64
    requires table { (seat.old.table_id ≡ table.now.shared.table_id) × (table.now.shared.table_id.words ≡ 8 + 8 * table.now.shared.key) }
    requires keeper { IsKeeper seat.old.me.0 }
    requires ended { (suc ended ≡ seat.old.me.0.numbers.epoch) × (seat.old.me.0.numbers.untaken ≡ 1) × (seat.old.me.0.numbers.cleared ≡ 0) }
    ensures { (seat.new.table_id ≡ seat.old.table_id) × Looks seat.old.me.0 result seat.new.me.0 × (seat.new.me.1 ≡ seat.old.me.1) }
{
    table.shared.load::<Look>(seat, 1 + (ended % 2) as usize)
}

/// A word of the ended epoch is taken, and stands for no event again.
pub(crate) fn take_word<P: Laid>(
    table: &Counters,
    seat: &mut Seat<(), View>,
    ended: u32,
    slot: u32,
    word: u32,
    empty: u64,
) -> u64
    requires table { (seat.old.table_id ≡ table.now.shared.table_id) × (table.now.shared.table_id.words ≡ 8 + 8 * table.now.shared.key) }
    requires taking { IsTaking seat.old.me.0 ended }
    requires turn { (seat.old.me.0.numbers.cleared ≡ 4 * slot + word) × (word < 4) × (slot < table.now.shared.key) }
    requires empty { empty ≡ close word 0 }
    requires laid { (word ≡ P.word) × (slot ≡ P.slot) }
    ensures seat { (seat.new.table_id ≡ seat.old.table_id) × (seat.new.me ≡ (cleared word slot result seat.old.me.0, seat.old.me.1)) }
    ensures fits { 2 ≤ word → result ≤ 4294967295 }
    ensures folds { seat.old.me.0.numbers.older ≡ 0 → result ≡ exact word (fold_of word ended slot seat.old.me.0.entries) }
{
    let place = 8 + 8 * slot as usize + 4 * (ended % 2) as usize + word as usize;
    table.shared.swap::<TakeCell<P>>(seat, place, empty)
}

/// All words of the ended epoch are taken into a tally, and so are its leaves.
pub(crate) fn take_leaves<F: Found>(
    table: &Counters,
    seat: &mut Seat<(), View>,
    ended: u32,
    tally: &Tally,
)
    requires table { (seat.old.table_id ≡ table.now.shared.table_id) × (table.now.shared.table_id.words ≡ 8 + 8 * table.now.shared.key) }
    requires taking { IsTaking seat.old.me.0 ended }
    requires all { seat.old.me.0.numbers.cleared ≡ 4 * table.now.shared.key }
    requires size { length tally.now ≡ table.now.shared.key }
    requires found { (k s : ℕ) → k < 4 → s < table.now.shared.key → word_of k (slice_index_or tally.now s (cell_of [])) ≡ found_at k s seat.old.me.0.told }
    requires cells { F.cells ≡ tally.now }
    ensures { (seat.new.table_id ≡ seat.old.table_id) × TakesLeaves tally.now seat.old.me.0 seat.new.me.0 × (seat.new.me.1 ≡ seat.old.me.1) }
{
    let _ = tally;
    let place = 1 + (ended % 2) as usize;
    table.shared.swap::<TakeLeaves<F>>(seat, place, 0);
}
