//! A clock in memory, of whose calls some fail.
ghost use Rattle.std.specs.Prelude.{◌≡◌, ◌≤◌, ◌↔◌, ℕ, List, IfOk, IsTrue, length, drop};

use crate::{Clock, Failed};
use pm_base::LAST_MOMENT;
use std::alloc::{AllocError, Global};

/// A clock with readings that are given when it is made. Its calls are numbered from 1; those whose numbers were given
/// fail, and so does one for which no reading is left. No call takes memory.
#[derive(Debug, Drop)]
pub struct MemClock {
    readings: Vec<u64>,
    at: usize,
    fails: Vec<u64>,
    calls: u64,
    faults: u64,
    ghost in_range: { at ≤ length readings.items },
}

impl MemClock {
    ghost use Rattle.pm_outside.specs.MemoryClock.{clock_left, clock_faults, clock_fails, clock_calls, ReadingFailsAt};

    /// A clock with these readings, of whose calls those of these numbers fail, counted from 1.
    pub fn new(alloc: Global, readings: &[u64], fails: &[u64]) -> Result<MemClock, AllocError>
        ensures content { IfOk result (λ clock. (clock_left clock ≡ readings.now) × (clock_faults clock ≡ 0)) }
        ensures fails { IfOk result (λ clock. (clock_fails clock ≡ fails.now) × (clock_calls clock ≡ 0)) }
    {
        Ok(MemClock {
            readings: Vec::from_slice(alloc, readings)?,
            at: 0,
            fails: Vec::from_slice(alloc, fails)?,
            calls: 0,
            faults: 0,
        })
    }

    /// The readings that are left.
    pub fn left(&self) -> &[u64]
        ensures { result.now ≡ clock_left self.now }
    {
        &self.readings[self.at..]
    }

    /// How often it has failed.
    pub fn faults(&self) -> u64
        ensures { result ≡ clock_faults self.now }
    {
        self.faults
    }

    fn fails_at(&self, number: u64) -> bool
        ensures { IsTrue result ↔ ReadingFailsAt self.now number }
    {
        self.fails.contains(&number) || self.left().is_empty()
    }
}

impl Clock for MemClock {
    ghost use Rattle.std.specs.Prelude.{IsErr};
    ghost use Rattle.std.specs.Result.{is_err};
    ghost use Rattle.pm_outside.specs.Causes.{faults_after};
    ghost use Rattle.pm_outside.specs.Memory.{next_call};
    ghost use Rattle.pm_outside.specs.Readings.{TakesReading};
    ghost use Rattle.pm_outside.specs.MemoryClock.{clock_left, clock_faults, clock_fails, clock_calls, IsReadingToFail};

    ghost IsTold = { Unit {0} };

    ghost left = { λ c. drop c.at c.readings.items };

    ghost faults = { λ c. c.faults };

    fn now(&mut self) -> Result<u64, Failed>
        ensures moment { IfOk result (λ moment. moment ≤ LAST_MOMENT) }
        ensures told { TakesReading (clock_left self.old) (clock_left self.new) result }
        ensures counted { clock_faults self.new ≡ faults_after (is_err result) (clock_faults self.old) }

        // It fails exactly by its number or for want of a reading.
        ensures exact { IsErr result ↔ IsReadingToFail self.old }
        ensures number { clock_calls self.new ≡ next_call (clock_calls self.old) }
        ensures plan { clock_fails self.new ≡ clock_fails self.old }
    {
        self.calls = self.calls.saturating_add(1);
        if self.fails_at(self.calls) {
            self.faults = self.faults.saturating_add(1);
            return Err(Failed);
        }
        let reading = self.readings[self.at];
        self.at += 1;
        Ok(reading.min(LAST_MOMENT))
    }
}
