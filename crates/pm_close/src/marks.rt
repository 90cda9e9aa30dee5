//! Which ticks of a granularity period are counted.

ghost use Rattle.std.specs.Prelude.{◌≡◌, ◌≤◌, ◌<◌, ◌+◌, ◌*◌, ◌-◌, ◌%◌, ◌^◌, ◌↔◌, ◌&&◌, ◌||◌, not, nat_lt, ℕ, Bool, true, false, List, IsSome, IfSome, MatchOption, Some};
ghost use Rattle.pm_base.specs.Moment.{tick_of};
ghost use Rattle.pm_history.specs.declared.entry.Side.{Side};
ghost use Rattle.pm_history.specs.declared.entry.Entry.TheVariants.{Now};
ghost use Rattle.pm_history.specs.History.{History, ◌▷◌, IsHistory, is_cut, last_moment};
ghost use Rattle.pm_history.specs.Terms.{Terms};
ghost use Rattle.pm_history.specs.Ticks.{at_some, at_each};
ghost use Rattle.pm_history.specs.Standing.{Making, Standing, making_of, standing_after};
ghost use Rattle.pm_history.specs.Counted.{is_counted, some_counted};
ghost use Rattle.pm_history.specs.Value.{is_suspect};
ghost use Rattle.pm_close.specs.declared.limits.TheConstants.{MOST_TICKS};

use crate::limits::MOST_TICKS;

/// A mark for each of so many ticks from the begin of a granularity period on: whether the tick is counted.
#[derive(Clone, Copy, Debug)]
pub struct Marks {
    begin: u64,
    count: usize,
    marks: [bool; MOST_TICKS as usize],
    ghost few: { count ≤ MOST_TICKS },
    ghost in_range: { begin + count < 2 ^ 63 },
}

impl Marks {
    ghost use Rattle.pm_close.specs.Marks.{mark_at, AreCounted, NoneCounted, NoneMarkedBefore, MarksStand, PeriodStands, IsMarked};

    /// The marks of something new, or of something after a gap: no tick of the open period is counted, up to this one.
    pub fn unmarked(granularity: u64, tick: u64) -> Marks
        requires some { 0 < granularity }
        requires few { granularity ≤ MOST_TICKS }
        requires in_range { tick < 2 ^ 63 }
        ensures stands { (terms : Side → List ℕ → Terms) (h : History) (w : Making)
            → ((t : ℕ) → result.begin ≤ t → t < tick → is_counted terms h w t ≡ false) → MarksStand terms h w granularity tick result }
        ensures begin { result.begin ≡ tick - tick % granularity }
        ensures reach { result.begin + result.count ≡ tick }
        ensures within { result.count < granularity }
        ensures none { (k : ℕ) → mark_at result k ≡ false }
    {
        let count = tick % granularity;
        Marks {
            begin: tick - count,
            count: count as usize,
            marks: [false; MOST_TICKS as usize],
        }
    }

    // One more mark.
    fn push(&mut self, mark: bool)
        requires room { self.old.count < MOST_TICKS }
        requires in_range { self.old.begin + self.old.count + 1 < 2 ^ 63 }
        ensures { IsMarked self.old mark self.new }
    {
        self.marks[self.count] = mark;
        self.count += 1;
    }

    // The next granularity period begins.
    fn begin_next(&mut self, granularity: u64)
        requires whole { self.old.count ≡ granularity }
        ensures begin { self.new.begin ≡ self.old.begin + granularity }
        ensures count { self.new.count ≡ 0 }
    {
        self.count = 0;
        self.begin += granularity;
    }

    /// One more tick is over, and counted or not. Answers the marks of the granularity period that ends with it, if one does.
    pub fn end_tick(&mut self, granularity: u64, mark: bool) -> Option<Marks>
        requires few { granularity ≤ MOST_TICKS }
        requires within { self.old.count < granularity }
        requires in_range { self.old.begin + self.old.count + 1 < 2 ^ 63 }
        ensures stands { (terms : Side → List ℕ → Terms) (h : History) (w : Making) (tick : ℕ) → MarksStand terms h w granularity tick self.old
            → mark ≡ is_counted terms h w tick → MarksStand terms h w granularity (tick + 1) self.new }
        ensures period { (terms : Side → List ℕ → Terms) (h : History) (w : Making) (tick : ℕ) → MarksStand terms h w granularity tick self.old
            → mark ≡ is_counted terms h w tick → IfSome result (PeriodStands terms h w granularity (tick + 1)) }
        ensures ends { IsSome result ↔ (self.old.count + 1 ≡ granularity) }
        ensures within { self.new.count < granularity }
        ensures marks { MatchOption result (IsMarked self.old mark self.new) (IsMarked self.old mark) }
        ensures on { self.new.begin + self.new.count ≡ self.old.begin + self.old.count + 1 }
        ensures next { IsSome result → (self.new.begin ≡ self.old.begin + granularity) × (self.new.count ≡ 0) }
    {
        self.push(mark);
        if (self.count as u64) < granularity {
            return None;
        }
        let period = *self;
        self.begin_next(granularity);
        Some(period)
    }

    /// Ticks up to this one are over, and none of them is counted. It takes no longer than a granularity period has ticks.
    pub fn end_uncounted(&mut self, granularity: u64, tick: u64)
        requires few { granularity ≤ MOST_TICKS }
        requires within { self.old.count < granularity }
        requires reach { self.old.begin + self.old.count ≤ tick }
        requires in_range { tick < 2 ^ 63 }
        ensures stands { (terms : Side → List ℕ → Terms) (h : History) (w : Making) (from : ℕ) → MarksStand terms h w granularity from self.old
            → NoneCounted terms h w from tick → MarksStand terms h w granularity tick self.new }
        ensures unmarked { (first : ℕ) → NoneMarkedBefore first self.old → NoneMarkedBefore first self.new }
        ensures reach { self.new.begin + self.new.count ≡ tick }
        ensures within { self.new.count < granularity }
    {
        if self.begin + granularity <= tick {
            *self = Marks::unmarked(granularity, tick);
            return;
        }
        for _t in self.begin + self.count as u64..tick {
            self.end_tick(granularity, false);
        }
    }

    /// The first tick.
    pub fn begin(&self) -> u64
        ensures { result ≡ self.now.begin }
    {
        self.begin
    }

    /// How many ticks there are.
    pub fn count(&self) -> usize
        ensures { result ≡ self.now.count }
    {
        self.count
    }

    /// Whether the k-th tick is counted.
    pub fn mark(&self, k: usize) -> bool
        requires { k < self.now.count }
        ensures { result ≡ mark_at self.now k }
    {
        self.marks[k]
    }

    /// Whether some tick is counted: else all values are null.
    pub fn is_some_counted(&self) -> bool
        ensures marks { result ≡ at_some self.now.count (mark_at self.now) }
        ensures counted { (terms : Side → List ℕ → Terms) (h : History) (w : Making) → AreCounted terms h w self.now
            → result ≡ some_counted terms h w self.now.begin self.now.count }
    {
        let mut some = false;
        for k in 0..self.count {
            some = or(some, self.marks[k]);
        }
        some
    }

    /// Whether some tick isn't counted: then all values are suspect.
    pub fn is_suspect(&self) -> bool
        ensures marks { result ≡ not (at_each self.now.count (mark_at self.now)) }
        ensures counted { (terms : Side → List ℕ → Terms) (h : History) (w : Making) → AreCounted terms h w self.now
            → result ≡ is_suspect terms h w self.now.begin self.now.count }
    {
        let mut each = true;
        for k in 0..self.count {
            each = and(each, self.marks[k]);
        }
        !each
    }
}

fn or(one: bool, other: bool) -> bool
    ensures { result ≡ (one || other) }
{
    one || other
}

fn and(one: bool, other: bool) -> bool
    ensures { result ≡ (one && other) }
{
    one && other
}

/// Whether a request counts a tick that it ends, for what exists: no start of the program cuts the tick, and it was
/// UNLOCKED before the tick and not changed since. `changed` is the moment of the last entry on it.
pub fn counts(cut: bool, changed: u64, unlocked: bool, tick: u64) -> bool
    requires { tick < 2 ^ 57 }
    ensures test { result ≡ (not cut && (nat_lt changed (60 * tick) && unlocked)) }
    ensures counted { (terms : Side → List ℕ → Terms) (side : Side) (h : History) (m : ℕ) (id : List ℕ) (s : Standing) → IsHistory h
        → standing_after terms side h id ≡ Some s → s.changed ≡ changed → s.unlocked ≡ unlocked → is_cut h tick ≡ cut
        → tick_of (last_moment h) ≤ tick → tick < tick_of m → result ≡ is_counted terms (h ▷ Now m) (making_of side id s) tick }
{
    ran_untouched(cut, changed, unlocked, tick)
}

fn ran_untouched(cut: bool, changed: u64, unlocked: bool, tick: u64) -> bool
    requires { tick < 2 ^ 57 }
    ensures { result ≡ (not cut && (nat_lt changed (60 * tick) && unlocked)) }
{
    !cut && changed < 60 * tick && unlocked
}
