//! The record of the calls of a disk in memory, in room that was taken before.
ghost use Rattle.std.specs.Prelude.{◌≡◌, ◌≤◌, ◌<◌, ◌+◌, ◌++◌, ◌∷◌, [], ◌↔◌, IsTrue, IfOk, length, vec_capacity};
ghost use Rattle.pm_disk.specs.Calls.{recorded_bytes, made_by, IsWithoutBytes};
ghost use Rattle.pm_disk.specs.Made.{Wrote};

use crate::contents::append;
use crate::{Area, Call};
use std::alloc::{AllocError, Global};

/// How many calls a record holds.
pub const MAX_CALLS: usize = 65536;

#[derive(Drop)]
pub struct Record {
    pub room: usize,
    pub calls: Vec<Call>,
    pub bytes: Vec<u8>,
    pub ghost whole: { length bytes.items ≡ recorded_bytes calls.items },
    pub ghost room_for_calls: { 65536 ≤ vec_capacity calls },
    pub ghost room_for_bytes: { room ≤ vec_capacity bytes },
    pub ghost in_room: { length bytes.items ≤ room },
    pub ghost few_calls: { length calls.items ≤ 65536 },
}

impl Record {
    ghost use Rattle.pm_disk.specs.Record.{made, bytes_kept};

    // An empty record with room for `MAX_CALLS` calls, and for so many bytes.
    pub fn new(alloc: Global, room: usize) -> Result<Record, AllocError>
        ensures empty { IfOk result (λ r. made r ≡ []) }
        ensures no_bytes { IfOk result (λ r. bytes_kept r ≡ 0) }
        ensures room { IfOk result (λ r. r.room ≡ room) }
    {
        Ok(Record {
            room,
            calls: Vec::with_capacity(alloc, MAX_CALLS)?,
            bytes: Vec::with_capacity(alloc, room)?,
        })
    }

    pub fn len(&self) -> usize
        ensures len { result ≡ length (made self.now) }
        ensures few { result ≤ 65536 }
    {
        self.calls.len()
    }

    // How many bytes more it has room for.
    pub fn spare(&self) -> usize
        ensures { bytes_kept self.now + result ≡ self.now.room }
    {
        self.room - self.bytes.len()
    }

    // Adds a call other than a write.
    pub fn add(&mut self, call: Call)
        requires not_full { length (made self.old) < 65536 }
        requires without_bytes { IsWithoutBytes call }
        ensures added { made self.new ≡ made self.old ++ made_by call ∷ [] }
        ensures same { bytes_kept self.new ≡ bytes_kept self.old }
        ensures room { self.new.room ≡ self.old.room }
    {
        keep(&mut self.calls, call);
    }

    // Adds a write with its bytes.
    pub fn add_write(&mut self, area: Area, at: u64, bytes: &[u8], done: bool)
        requires not_full { length (made self.old) < 65536 }
        requires fits { bytes_kept self.old + length bytes.now ≤ self.old.room }
        ensures added { made self.new ≡ made self.old ++ Wrote area at bytes.now done ∷ [] }
        ensures more { bytes_kept self.new ≡ bytes_kept self.old + length bytes.now }
        ensures room { self.new.room ≡ self.old.room }
    {
        append(&mut self.bytes, bytes);
        let count = bytes.len() as u64;
        keep(
            &mut self.calls,
            Call::Write {
                area,
                at,
                count,
                done,
            },
        );
    }
}

// Adds a call where there is room for it.
fn keep(calls: &mut Vec<Call>, call: Call)
    requires { length calls.old.items < vec_capacity calls.old }
    ensures kept { calls.new.items ≡ calls.old.items ++ call ∷ [] }
    ensures room { vec_capacity calls.old ≤ vec_capacity calls.new }
{
    match calls.push(call) {
        Ok(()) => {}
        Err(_) => unreachable!(),
    }
}
