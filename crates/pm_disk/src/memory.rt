//! A disk in memory, of whose calls some fail. It keeps a record of its calls, and tells what they made.
ghost use Rattle.std.specs.Prelude.{◌≡◌, ◌≤◌, ◌<◌, ◌+◌, ◌++◌, [], ◌∷◌, ◌↔◌, ◌⊎◌, ℕ, true, length, Contains, IsTrue, IsErr, IfOk};
ghost use Rattle.std.specs.Result.{is_err};
ghost use Rattle.pm_outside.specs.Causes.{faults_after};
ghost use Rattle.pm_disk.specs.declared.area.Area.{Area};
ghost use Rattle.pm_disk.specs.Moments.{of};
ghost use Rattle.pm_disk.specs.Made.{Wrote, CutTo, Synced, replayed, blank};
ghost use Rattle.pm_disk.specs.Record.{made, bytes_kept};
ghost use Rattle.pm_disk.specs.Contents.{content};
ghost use Rattle.pm_disk.specs.Sound.{replayed_reads};

use crate::contents::Contents;
use crate::record::{MAX_CALLS, Record};
use crate::{Area, Call, Disk};
use pm_outside::Failed;
use std::alloc::{AllocError, Global};

/// A disk in memory. It records its first 65,536 calls, with the bytes of each write. A call past these fails, and so does
/// a write by which the bytes of all writes together would pass the room: such a call isn't begun. A call that fails by its
/// number leaves what a read gives, and of a write or a cut the images of one that is torn. No call takes memory: the room
/// and the record are taken when the disk is made.
#[derive(Drop)]
pub struct MemDisk {
    calls: Record,
    contents: Contents,
    fails: Vec<u64>,
    faults: u64,
    ghost reads: { (area : Area) → content contents area ≡ (of (replayed blank (made calls)).now area).seen },
    ghost small: { (area : Area) → length (content contents area) ≤ bytes_kept calls },
    ghost room: { calls.room ≡ contents.room },
}

impl MemDisk {
    ghost use Rattle.pm_disk.specs.Memory.{told_of, faults_of, fails_of, room_of, count_of, IsFull, IsToFail};

    /// An empty disk with room for so many bytes of writes, of whose calls those of these numbers fail, counted from 1.
    pub fn new(alloc: Global, room: u64, fails: &[u64]) -> Result<MemDisk, AllocError>
        ensures told { IfOk result (λ disk. told_of disk ≡ blank) }
        ensures faults { IfOk result (λ disk. faults_of disk ≡ 0) }
        ensures count { IfOk result (λ disk. count_of disk ≡ 0) }
        ensures room { IfOk result (λ disk. room_of disk ≡ room) }
        ensures fails { IfOk result (λ disk. fails_of disk ≡ fails.now) }
    {
        Ok(MemDisk {
            calls: Record::new(alloc, room as usize)?,
            contents: Contents::new(alloc, room as usize)?,
            fails: Vec::from_slice(alloc, fails)?,
            faults: 0,
        })
    }

    /// What the area reads.
    pub fn bytes(&self, area: Area) -> &[u8]
        ensures { result.now ≡ (of (told_of self.now).now area).seen }
    {
        self.contents.bytes(area)
    }

    /// How often the disk has failed.
    pub fn faults(&self) -> u64
        ensures { result ≡ faults_of self.now }
    {
        self.faults
    }

    // Whether the record has room for no call more.
    fn is_past(&self) -> bool
        ensures past { IsTrue result ↔ IsFull self.now }
        ensures few { count_of self.now ≤ 65536 }
    {
        self.calls.len() >= MAX_CALLS
    }

    // Whether the next call is one of those that are to fail.
    fn is_to_fail(&self) -> bool
        ensures { IsTrue result ↔ IsToFail self.now }
    {
        let number = self.calls.len() as u64 + 1;
        self.fails.contains(&number)
    }
}

// Counts a fault.
fn fail(faults: &mut u64) -> Failed
    ensures { faults.new ≡ faults_after true faults.old }
{
    *faults = faults.saturating_add(1);
    Failed
}

impl Disk for MemDisk {
    ghost use Rattle.std.specs.Prelude.{take, drop, OnOk};
    ghost use Rattle.pm_disk.specs.Area.{IsWrite, IsCut, IsSync};
    ghost use Rattle.pm_disk.specs.Moments.{IsStep};
    ghost use Rattle.pm_disk.specs.Memory.{told_of, faults_of, kept_of, IsFull, IsRefused, IsToFail, Tells, KeepsBytes, SamePlan};

    ghost IsTold = { Unit {0} };

    ghost told = { λ disk. replayed blank (made disk.calls) };

    ghost faults = { λ disk. disk.faults };

    ghost reads_image = { λ disk area told. replayed_reads (made disk.calls) area };

    fn len(&mut self, area: Area) -> Result<u64, Failed>
        ensures length { IfOk result (λ n. n ≡ length (of (told_of self.old).now area).seen) }
        ensures told { told_of self.new ≡ told_of self.old }
        ensures faults { faults_of self.new ≡ faults_after (is_err result) (faults_of self.old) }
        ensures exact { IsErr result ↔ (IsFull self.old ⊎ IsToFail self.old) }
        ensures plan { SamePlan self.old self.new }
        ensures kept { kept_of self.new ≡ kept_of self.old }
    {
        if self.is_past() {
            return Err(fail(&mut self.faults));
        }
        let done = !self.is_to_fail();
        self.calls.add(Call::Len { area, done });
        if !done {
            return Err(fail(&mut self.faults));
        }
        Ok(self.contents.bytes(area).len() as u64)
    }

    fn read(&mut self, area: Area, at: u64, buf: &mut [u8]) -> Result<(), Failed>
        requires { at + length buf.old ≤ length (of (told_of self.old).now area).seen }
        ensures bytes { OnOk result (buf.new ≡ take (length buf.old) (drop at (of (told_of self.old).now area).seen)) }
        ensures told { told_of self.new ≡ told_of self.old }
        ensures faults { faults_of self.new ≡ faults_after (is_err result) (faults_of self.old) }
        ensures exact { IsErr result ↔ (IsFull self.old ⊎ IsToFail self.old) }
        ensures plan { SamePlan self.old self.new }
        ensures kept { kept_of self.new ≡ kept_of self.old }
    {
        if self.is_past() {
            return Err(fail(&mut self.faults));
        }
        let done = !self.is_to_fail();
        let count = buf.len() as u64;
        self.calls.add(Call::Read {
            area,
            at,
            count,
            done,
        });
        if !done {
            return Err(fail(&mut self.faults));
        }
        let at = at as usize;
        let end = at + buf.len();
        buf.copy_from_slice(&self.contents.bytes(area)[at..end]);
        Ok(())
    }

    fn write_at(&mut self, area: Area, at: u64, bytes: &[u8]) -> Result<(), Failed>
        requires { at ≤ length (of (told_of self.old).now area).seen }
        ensures told { IsStep area (IsWrite at bytes.now result) (told_of self.old) (told_of self.new) }
        ensures tells { Tells (IsRefused self.old (length bytes.now)) (Wrote area at bytes.now) result self.old self.new }
        ensures faults { faults_of self.new ≡ faults_after (is_err result) (faults_of self.old) }
        ensures exact { IsErr result ↔ (IsRefused self.old (length bytes.now) ⊎ IsToFail self.old) }
        ensures plan { SamePlan self.old self.new }
        ensures kept { KeepsBytes (length bytes.now) self.old self.new }
    {
        if self.is_past() {
            return Err(fail(&mut self.faults));
        }
        if bytes.len() > self.calls.spare() {
            let count = bytes.len() as u64;
            self.calls.add(Call::Full { area, at, count });
            return Err(fail(&mut self.faults));
        }
        if self.is_to_fail() {
            self.calls.add_write(area, at, bytes, false);
            return Err(fail(&mut self.faults));
        }
        self.calls.add_write(area, at, bytes, true);
        self.contents.write_at(area, at as usize, bytes);
        Ok(())
    }

    fn cut(&mut self, area: Area, to: u64) -> Result<(), Failed>
        requires { to ≤ length (of (told_of self.old).now area).seen }
        ensures told { IsStep area (IsCut to result) (told_of self.old) (told_of self.new) }
        ensures tells { Tells (IsFull self.old) (CutTo area to) result self.old self.new }
        ensures faults { faults_of self.new ≡ faults_after (is_err result) (faults_of self.old) }
        ensures exact { IsErr result ↔ (IsFull self.old ⊎ IsToFail self.old) }
        ensures plan { SamePlan self.old self.new }
        ensures kept { kept_of self.new ≡ kept_of self.old }
    {
        if self.is_past() {
            return Err(fail(&mut self.faults));
        }
        if self.is_to_fail() {
            let done = false;
            self.calls.add(Call::Cut { area, to, done });
            return Err(fail(&mut self.faults));
        }
        let done = true;
        self.calls.add(Call::Cut { area, to, done });
        self.contents.cut(area, to as usize);
        Ok(())
    }

    fn sync(&mut self, area: Area) -> Result<(), Failed>
        ensures told { IsStep area (IsSync result) (told_of self.old) (told_of self.new) }
        ensures tells { Tells (IsFull self.old) (Synced area) result self.old self.new }
        ensures faults { faults_of self.new ≡ faults_after (is_err result) (faults_of self.old) }
        ensures exact { IsErr result ↔ (IsFull self.old ⊎ IsToFail self.old) }
        ensures plan { SamePlan self.old self.new }
        ensures kept { kept_of self.new ≡ kept_of self.old }
    {
        if self.is_past() {
            return Err(fail(&mut self.faults));
        }
        let done = !self.is_to_fail();
        self.calls.add(Call::Sync { area, done });
        if !done {
            return Err(fail(&mut self.faults));
        }
        Ok(())
    }
}
