//! At which moments stored items may come.
ghost use Rattle.std.specs.Prelude.{◌↔◌, IsTrue};
ghost use Rattle.pm_base.specs.Moment.{IsMoment};
ghost use Rattle.pm_replay.specs.Allowed.{IsBeside, MayBook, TakesTick};

use crate::cells::cells_fit;
use pm_base::{LAST_MOMENT, tick};
use pm_inventory::Inventory;
use pm_meas::Cell;

/// The most seconds from the first moment of a tick to a Booked that takes it: a request may come in the last second of the tick, and
/// another one a day after it.
pub const MOST_AHEAD: u64 = 86_459;

/// Whether a moment lies in the tick of the last one, and not before it.
pub fn is_beside(last: u64, moment: u64) -> bool
    ensures { IsTrue result ↔ IsBeside last moment }
{
    last <= moment && tick(moment) == tick(last)
}

// Whether a Booked at this moment may take this tick.
fn takes_tick(last: u64, moment: u64, taken: u64) -> bool
    requires { IsMoment last }
    ensures { IsTrue result ↔ TakesTick last moment taken }
{
    if moment > LAST_MOMENT || moment > 60 * tick(last) + MOST_AHEAD {
        return false;
    }
    tick(last) < tick(moment) && taken == tick(last)
}

/// Whether a Booked may come next.
pub fn may_book(
    inventory: &Inventory,
    last: u64,
    moment: u64,
    taken: u64,
    cells: &[(u16, Cell)],
    cursors: &[u64],
) -> bool
    requires { IsMoment last }
    ensures { IsTrue result ↔ MayBook inventory.now last moment taken cells.now cursors.now }
{
    if !takes_tick(last, moment, taken) || !cursors.is_empty() {
        return false;
    }
    cells_fit(inventory.slots(), cells)
}
