//! A source in memory, of whose calls some fail.
ghost use Rattle.std.specs.Prelude.{◌≡◌, ◌≤◌, ℕ, Option, Some, Ok, [], List, length, take, drop, min, IfOk};

use crate::copying::copy_front;
use crate::{Failed, Source};
use std::alloc::{AllocError, Global};

/// A source of bytes that are given when it is made. Its calls are numbered from 1, and those whose numbers were given
/// fail. No call takes memory.
#[derive(Debug, Drop)]
pub struct MemSource {
    bytes: Vec<u8>,
    at: usize,
    fails: Vec<u64>,
    calls: u64,
    faults: u64,
    ghost in_range: { at ≤ length bytes.items },
}

impl MemSource {
    ghost use Rattle.pm_outside.specs.Memory.{source_left, source_faults, source_fails, source_calls};

    /// A source with these bytes, of whose calls those of these numbers fail, counted from 1.
    pub fn new(alloc: Global, bytes: &[u8], fails: &[u64]) -> Result<MemSource, AllocError>
        ensures content { IfOk result (λ source. (source_left source ≡ bytes.now) × (source_faults source ≡ 0)) }
        ensures fails { IfOk result (λ source. (source_fails source ≡ fails.now) × (source_calls source ≡ 0)) }
    {
        Ok(MemSource {
            bytes: Vec::from_slice(alloc, bytes)?,
            at: 0,
            fails: Vec::from_slice(alloc, fails)?,
            calls: 0,
            faults: 0,
        })
    }

    /// The bytes that are left.
    pub fn left(&self) -> &[u8]
        ensures { result.now ≡ source_left self.now }
    {
        &self.bytes[self.at..]
    }

    /// How often it has failed.
    pub fn faults(&self) -> u64
        ensures { result ≡ source_faults self.now }
    {
        self.faults
    }
}

impl Source for MemSource {
    ghost use Rattle.std.specs.Prelude.{◌↔◌, IsErr};
    ghost use Rattle.std.specs.Io.{ReadsAtMost};
    ghost use Rattle.std.specs.Result.{is_err};
    ghost use Rattle.pm_outside.specs.Causes.{faults_after};
    ghost use Rattle.pm_outside.specs.Outside.{Gives};
    ghost use Rattle.pm_outside.specs.Memory.{source_left, source_faults, source_fails, source_calls, next_call, IsReadToFail};

    ghost IsTold = { Unit {0} };

    ghost left = { λ s. drop s.at s.bytes.items };

    ghost faults = { λ s. s.faults };

    fn read(&mut self, buf: &mut [u8]) -> Result<usize, Failed>
        ensures bound { ReadsAtMost result buf.new }
        ensures told { Gives (source_left self.old) (source_left self.new) result buf.new }
        ensures counted { source_faults self.new ≡ faults_after (is_err result) (source_faults self.old) }

        // It fails exactly by its number, and else gives as much as there is room for.
        ensures exact { IsErr result ↔ IsReadToFail self.old }
        ensures whole { IfOk result (λ n. n ≡ min (length (source_left self.old)) (length buf.old)) }
        ensures number { source_calls self.new ≡ next_call (source_calls self.old) }
        ensures plan { source_fails self.new ≡ source_fails self.old }
    {
        self.calls = self.calls.saturating_add(1);
        if self.fails.contains(&self.calls) {
            self.faults = self.faults.saturating_add(1);
            return Err(Failed);
        }
        let count = copy_front(&self.bytes[self.at..], buf);
        self.at += count;
        Ok(count)
    }
}
