//! A threshold on a sequence of values, which come one by one.
//!
//! A watch keeps two facts of the values since it began: whether each value of at least `high` has a later one that
//! rearms, and whether some value over the threshold has no later one of at most `low`.

ghost use Rattle.std.specs.Prelude.{◌≡◌, ◌≤◌, ◌↔◌, ◌⊎◌, ◌∷◌, ◌++◌, ℕ, List, [], length, IsTrue};
ghost use Rattle.pm_history.specs.Crossing.{AreFlags};
ghost use Rattle.pm_thresh.specs.Watch.{StandsAfter, IsCrossing, answer_by, with_value};

use crate::direction::Direction;

/// One threshold, the directions that it keeps, and what it knows of the values since it began.
#[derive(Clone, Copy, Debug, PartialEq, Eq)]
pub struct Watch {
    high: u64,
    low: u64,
    up: bool,
    down: bool,
    rearmed: bool,
    raised: bool,
}

impl Watch {
    /// A watch over the empty sequence. `high` is the threshold plus its hysteresis and `low` the threshold minus it, in
    /// the metric's unit. `up` and `down` say which crossings are kept.
    pub fn new(high: u64, low: u64, up: bool, down: bool) -> Watch
        requires { low ≤ high }
        ensures high { result.high ≡ high }
        ensures low { result.low ≡ low }
        ensures up { result.up ≡ up }
        ensures down { result.down ≡ down }
        ensures sequence { StandsAfter result [] }
    {
        Watch {
            high,
            low,
            up,
            down,
            rearmed: true,
            raised: false,
        }
    }

    /// A watch that goes on where another stopped, whose `flags` these are.
    ///
    /// No sequence leaves the flags 3, nor 0 where `low` is less than `high`. From them each value is still answered by
    /// clause `by_flags` of `step`, as the number 1 and the number 2 in them say.
    pub fn resume(high: u64, low: u64, up: bool, down: bool, flags: u8) -> Watch
        requires limits { low ≤ high }
        requires flags { flags ≤ 3 }
        ensures high { result.high ≡ high }
        ensures low { result.low ≡ low }
        ensures up { result.up ≡ up }
        ensures down { result.down ≡ down }
        ensures sequence { (values : List ℕ) → AreFlags high low values flags → StandsAfter result values }
        ensures rearmed { IsTrue result.rearmed ↔ ((flags ≡ 1) ⊎ (flags ≡ 3)) }
        ensures raised { IsTrue result.raised ↔ (2 ≤ flags) }
    {
        Watch {
            high,
            low,
            up,
            down,
            rearmed: flags == 1 || flags == 3,
            raised: flags >= 2,
        }
    }

    /// Takes the next value of the sequence, and answers the kept crossing at its place, if one stands there.
    pub fn step(&mut self, value: u64) -> Option<Direction>
        // The answer is that of the whole sequence, whatever values come later.
        ensures crossing { (values later : List ℕ) → StandsAfter self.old values
            → IsCrossing self.old.high self.old.low self.old.up self.old.down (values ++ value ∷ later) (length values) result }
        ensures sequence { (values : List ℕ) → StandsAfter self.old values → StandsAfter self.new (values ++ value ∷ []) }
        ensures by_flags { result ≡ answer_by self.old value }
        ensures fields { self.new ≡ with_value self.old value }
    {
        let answer = self.answer(value);
        *self = self.after(value);
        answer
    }

    fn answer(&self, value: u64) -> Option<Direction>
        ensures { result ≡ answer_by self.now value }
    {
        if self.up && self.rearmed && self.high <= value {
            Some(Direction::Up)
        } else if self.down && self.raised && value <= self.low {
            Some(Direction::Down)
        } else {
            None
        }
    }

    fn after(&self, value: u64) -> Watch
        ensures { result ≡ with_value self.now value }
    {
        Watch {
            rearmed: value < self.high && (self.rearmed || value <= self.low),
            raised: self.low < value && (self.raised || self.high <= value),
            ..*self
        }
    }

    /// Begins an empty sequence, with the same limits and directions.
    pub fn restart(&mut self)
        ensures high { self.new.high ≡ self.old.high }
        ensures low { self.new.low ≡ self.old.low }
        ensures up { self.new.up ≡ self.old.up }
        ensures down { self.new.down ≡ self.old.down }
        ensures sequence { StandsAfter self.new [] }
    {
        self.rearmed = true;
        self.raised = false;
    }

    /// What the sequence so far leaves, for `resume`: 1 where each value of at least `high` has a later one that is at
    /// most `low` and under `high`, and 2 besides where some value of at least `high` and over `low` has no later one of
    /// at most `low`.
    pub fn flags(&self) -> u8
        ensures at_most { result ≤ 3 }
        ensures flags { (values : List ℕ) → StandsAfter self.now values → AreFlags self.now.high self.now.low values result }
        ensures rearmed { IsTrue self.now.rearmed ↔ ((result ≡ 1) ⊎ (result ≡ 3)) }
        ensures raised { IsTrue self.now.raised ↔ (2 ≤ result) }
    {
        u8::from(self.rearmed) + 2 * u8::from(self.raised)
    }
}
