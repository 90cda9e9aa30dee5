//! Which ticks are counted.
ghost use Rattle.std.specs.Prelude.{◌≡◌, ◌*◌, ◌+◌, ◌<◌, ◌^◌, ◌&&◌, ◌||◌, ◌==◌};
ghost use Rattle.std.specs.Option.{is_some};
ghost use Rattle.pm_base.specs.Moment.{tick_of};
ghost use Rattle.pm_history.specs.Entry.{moment_of, change_of};
ghost use Rattle.pm_history.specs.History.{history_of};
ghost use Rattle.pm_history.specs.Standing.{stands};
ghost use Rattle.pm_history.specs.Counted.{is_touched, ran, is_counted, some_counted, all_counted};
ghost use Rattle.pm_history.specs.Value.{is_suspect};
ghost use Rattle.pm_slow.specs.Book.{terms_in};

use crate::book::Book;
use crate::history::{before, is_cut, is_over};
use crate::logic::{and, or};
use crate::making::Making;
use crate::standing::{Standing, is_under, runs, standing_after, standing_next, stands};
use pm_base::tick;
use pm_history::Entry;

// Whether the entry lies in the tick, and is on what was made there; `old` and `new` stand before and after it.
fn is_touch(
    w: &Making,
    old: &Option<Standing>,
    new: &Option<Standing>,
    entry: &Entry,
    at: u64,
) -> bool
    ensures { result ≡ ((tick_of (moment_of entry.now) == at) && (is_some (change_of w.now.side w.now.id entry.now) && (stands w.now.place old.now || stands w.now.place new.now))) }
{
    let here = tick(entry.moment()) == at;
    let standing = or(stands(w.place, old), stands(w.place, new));
    let on = and(is_under(w.side, w.id, entry), standing);
    and(here, on)
}

// Whether an entry on what was made there has its moment in the tick.
fn is_touched(book: &Book, history: &[Entry], w: &Making, at: u64) -> bool
    ensures { result ≡ is_touched (terms_in book.now) (history_of history.now) w.now at }
{
    let mut touched = false;
    let mut old = None;
    for (place, entry) in history.iter().enumerate() {
        let new = standing_next(book, w.side, w.id, place as u64, &old, entry);
        let touch = is_touch(w, &old, &new, entry, at);
        touched = or(touched, touch);
        old = new;
    }
    touched
}

// Whether it stood and was UNLOCKED at the tick's first moment.
fn ran(book: &Book, history: &[Entry], w: &Making, at: u64) -> bool
    requires { 60 * at < 2 ^ 64 }
    ensures { result ≡ ran (terms_in book.now) (history_of history.now) w.now at }
{
    runs(
        w.place,
        &standing_after(book, w.side, before(history, 60 * at), w.id),
    )
}

/// Whether a tick is counted for a job or a monitor.
pub fn is_counted(book: &Book, history: &[Entry], w: &Making, at: u64) -> bool
    requires { 60 * at < 2 ^ 64 }
    ensures { result ≡ is_counted (terms_in book.now) (history_of history.now) w.now at }
{
    is_over(history, at)
        && !is_cut(history, at)
        && ran(book, history, w, at)
        && !is_touched(book, history, w, at)
}

/// Whether some of the ticks from the first on is counted.
pub fn some_counted(book: &Book, history: &[Entry], w: &Making, first: u64, ticks: u64) -> bool
    requires { 60 * (first + ticks) < 2 ^ 64 }
    ensures { result ≡ some_counted (terms_in book.now) (history_of history.now) w.now first ticks }
{
    let mut some = false;
    for k in 0..ticks {
        let counted = is_counted(book, history, w, first + k);
        some = or(some, counted);
    }
    some
}

/// Whether some of the ticks from the first on is not counted.
pub fn is_suspect(book: &Book, history: &[Entry], w: &Making, first: u64, ticks: u64) -> bool
    requires { 60 * (first + ticks) < 2 ^ 64 }
    ensures { result ≡ is_suspect (terms_in book.now) (history_of history.now) w.now first ticks }
{
    let mut all = true;
    for k in 0..ticks {
        let counted = is_counted(book, history, w, first + k);
        all = and(all, counted);
    }
    !all
}
