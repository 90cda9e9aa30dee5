//! The value sequences of monitors, a watch for each.

ghost use Rattle.std.specs.Prelude.{◌≡◌, ◌≤◌, ◌+◌, ℕ, List};
ghost use Rattle.pm_base.specs.Moment.{tick_of};
ghost use Rattle.pm_history.specs.declared.entry.Side.{Side};
ghost use Rattle.pm_history.specs.History.{History};
ghost use Rattle.pm_history.specs.Terms.{Terms, Watched};
ghost use Rattle.pm_history.specs.Standing.{Making};
ghost use Rattle.pm_history.specs.Notices.{value_at, crossing_at};
ghost use Rattle.pm_close.specs.Flags.{WatchStands, taken, crossing_told};

use pm_thresh::{Direction, Watch};

/// A granularity period ends, and its value is or isn't suspect: the crossing that it makes, if one is kept. A value that
/// is null or suspect isn't one of the sequence.
pub fn watch_period(watch: &mut Watch, value: Option<u64>, suspect: bool) -> Option<Direction>
    ensures stands { (terms : Side → List ℕ → Terms) (h : History) (w : Making) (granularity : ℕ) (watched : Watched) (object armed tick : ℕ)
        → tick_of armed ≤ tick → value_at terms h w granularity object watched.metric (tick + 1) ≡ taken value suspect
        → WatchStands terms h w granularity watched object armed tick watch.old
        → WatchStands terms h w granularity watched object armed (tick + 1) watch.new }
    ensures crossing { (terms : Side → List ℕ → Terms) (h : History) (w : Making) (granularity : ℕ) (watched : Watched) (object armed tick : ℕ)
        → tick_of armed ≤ tick → value_at terms h w granularity object watched.metric (tick + 1) ≡ taken value suspect
        → WatchStands terms h w granularity watched object armed tick watch.old
        → crossing_at terms h w granularity armed (tick + 1) watched object ≡ crossing_told w.id watched object (tick + 1) value result }
{
    match value {
        Some(value) if !suspect => watch.step(value),
        _ => None,
    }
}
