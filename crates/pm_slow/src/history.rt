//! Moments, and what a Boot cuts.
ghost use Rattle.std.specs.Prelude.{◌≡◌, ℕ, ◌*◌, ◌<◌, ◌^◌, if◌then◌else◌, length};
ghost use Rattle.pm_base.specs.Moment.{tick_of};
ghost use Rattle.pm_history.specs.History.{History, history_of, last_moment, before, is_over, first_cut, cuts, is_cut};

use crate::logic::or;
use pm_base::tick;
use pm_history::Entry;

/// The moment of the last entry, and 0 of none.
pub fn last_moment(history: &[Entry]) -> u64
    ensures { result ≡ last_moment (history_of history.now) }
{
    let mut last = 0;
    for entry in history {
        last = entry.moment();
    }
    last
}

pub(crate) fn pick(test: bool, one: usize, other: usize) -> usize
    ensures { result ≡ (if test then one else other) }
{
    if test { one } else { other }
}

/// The entries with moments less than this one: those up to the last such entry.
pub fn before(history: &[Entry], moment: u64) -> &[Entry]
    ensures { history_of result.now ≡ before moment (history_of history.now) }
{
    let mut count = 0;
    for (place, entry) in history.iter().enumerate() {
        count = pick(entry.moment() < moment, place + 1, count);
    }
    &history[..count]
}

/// Whether the last entry lies in a later tick.
pub fn is_over(history: &[Entry], at: u64) -> bool
    ensures { result ≡ is_over (history_of history.now) at }
{
    at < tick(last_moment(history))
}

// Whether the entry is a Boot that cuts the tick. `some` says that an entry stands before it, at `last`.
fn cuts(some: bool, last: u64, entry: &Entry, at: u64) -> bool
    ensures { (h : History) → ((m : ℕ) → first_cut h m ≡ (if some then tick_of last else tick_of m)) → result ≡ cuts h entry.now at }
{
    match entry {
        Entry::Boot { moment } => {
            let first = if some { tick(last) } else { tick(*moment) };
            first <= at && at <= tick(*moment)
        }
        _ => false,
    }
}

/// Whether a Boot cuts the tick.
pub fn is_cut(history: &[Entry], at: u64) -> bool
    ensures { result ≡ is_cut (history_of history.now) at }
{
    let mut cut = false;
    let mut some = false;
    let mut last = 0;
    for entry in history {
        let cuts = cuts(some, last, entry, at);
        cut = or(cut, cuts);
        last = entry.moment();
        some = true;
    }
    cut
}
