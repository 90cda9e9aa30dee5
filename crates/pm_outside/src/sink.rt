//! A sink in memory, of whose calls some fail.
ghost use Rattle.std.specs.Prelude.{◌≡◌, ◌≤◌, ◌↔◌, ℕ, [], List, IfOk, IsTrue, length, vec_capacity};

use crate::{Failed, Sink};
use std::alloc::{AllocError, Global};

/// A sink with room for so many bytes. Its calls are numbered from 1; those whose numbers were given fail, and so does one
/// whose bytes the room doesn't hold. No call takes memory, and a call that fails appends nothing.
#[derive(Debug, Drop)]
pub struct MemSink {
    room: usize,
    bytes: Vec<u8>,
    fails: Vec<u64>,
    calls: u64,
    faults: u64,
    ghost room_held: { room ≤ vec_capacity bytes },
    ghost within: { length bytes.items ≤ room },
}

impl MemSink {
    ghost use Rattle.pm_outside.specs.Memory.{sink_written, sink_faults, sink_room, sink_fails, sink_calls, FailsAt};

    /// An empty sink with room for so many bytes, of whose calls those of these numbers fail, counted from 1.
    pub fn new(alloc: Global, room: u64, fails: &[u64]) -> Result<MemSink, AllocError>
        ensures empty { IfOk result (λ sink. (sink_written sink ≡ []) × (sink_faults sink ≡ 0)) }
        ensures room { IfOk result (λ sink. sink_room sink ≡ room) }
        ensures fails { IfOk result (λ sink. (sink_fails sink ≡ fails.now) × (sink_calls sink ≡ 0)) }
    {
        Ok(MemSink {
            room: room as usize,
            bytes: Vec::with_capacity(alloc, room as usize)?,
            fails: Vec::from_slice(alloc, fails)?,
            calls: 0,
            faults: 0,
        })
    }

    /// The bytes written.
    pub fn written(&self) -> &[u8]
        ensures { result.now ≡ sink_written self.now }
    {
        self.bytes.as_slice()
    }

    /// How often it has failed.
    pub fn faults(&self) -> u64
        ensures { result ≡ sink_faults self.now }
    {
        self.faults
    }

    fn fails_at(&self, number: u64, count: usize) -> bool
        ensures { IsTrue result ↔ FailsAt self.now number count }
    {
        self.fails.contains(&number) || count > self.room - self.bytes.len()
    }
}

impl Sink for MemSink {
    ghost use Rattle.std.specs.Prelude.{◌↔◌, ◌++◌, length, IsErr, OnErr};
    ghost use Rattle.std.specs.Result.{is_err};
    ghost use Rattle.pm_outside.specs.Causes.{faults_after};
    ghost use Rattle.pm_outside.specs.Outside.{Takes};
    ghost use Rattle.pm_outside.specs.Memory.{sink_written, sink_faults, sink_room, sink_fails, sink_calls, next_call, IsPutToFail};

    ghost IsTold = { Unit {0} };

    ghost written = { λ s. s.bytes.items };

    ghost faults = { λ s. s.faults };

    fn put(&mut self, bytes: &[u8]) -> Result<(), Failed>
        ensures told { Takes (sink_written self.old) (sink_written self.new) result bytes.now }
        ensures counted { sink_faults self.new ≡ faults_after (is_err result) (sink_faults self.old) }

        // It fails exactly by its number or by the room, and then appends nothing.
        ensures exact { IsErr result ↔ IsPutToFail self.old (length bytes.now) }
        ensures stays { OnErr result (sink_written self.new ≡ sink_written self.old) }
        ensures number { sink_calls self.new ≡ next_call (sink_calls self.old) }
        ensures plan { (sink_fails self.new ≡ sink_fails self.old) × (sink_room self.new ≡ sink_room self.old) }
    {
        self.calls = self.calls.saturating_add(1);
        if self.fails_at(self.calls, bytes.len()) {
            self.faults = self.faults.saturating_add(1);
            return Err(Failed);
        }
        match self.bytes.extend_from_slice(bytes) {
            Ok(()) => Ok(()),
            Err(_) => unreachable!(),
        }
    }
}
