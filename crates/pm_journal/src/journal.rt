//! A list of items in one area of a disk.
//!
//!     offset   bytes  what
//!     0        8      the mark: `PMDLOG1` and a line feed
//!     8        1      a gate: 1 if an item follows, any other value at the end of the list
//!     9        4      the item's length, the greatest byte first
//!     13       n      the item
//!     13 + n   1      the next gate
//!
//! An area of at most 9 bytes is fresh. `append` writes the length, the item and a closed gate after the closed gate, syncs,
//! opens the gate, and syncs again. `next` cuts what follows the closed gate, so that nothing counts once it is opened.
ghost use Rattle.std.specs.Prelude.{◌≡◌, ◌<◌, ◌≤◌, ◌+◌, ◌^◌, ◌++◌, [], ◌∷◌, List, ℕ, length, drop, IsNone, IsSome, OnOk, IfOk, IfErr};
ghost use Rattle.pm_outside.specs.Causes.{faults_after};
ghost use Rattle.pm_disk.specs.Moments.{of, Throughout};
ghost use Rattle.pm_journal.specs.Items.{with_item};
ghost use Rattle.pm_journal.specs.Lists.{KeepsArea, KeepsLists, HasEither};

use crate::appending::{add, cut_to};
use crate::opening::begin;
use crate::phase::Phase;
use crate::reading::{Found, find};
use crate::{Item, JournalError};
use pm_base::Blob;
use pm_disk::{Area, Disk};
use pm_outside::Failed;
use std::alloc::Global;

/// A journal. It is opened, then read with `next` up to the end of its list, and then it takes items. After `StoreFault` it is
/// spent, and its area is to be opened again.
#[derive(Drop)]
pub struct Journal {
    alloc: Global,
    area: Area,
    limit: u64,
    at: u64,
    length: u64,
    phase: Phase,
    ghost inside: { at < length },
    ghost in_limit: { length ≤ limit },
    ghost small: { limit ≤ 2 ^ 32 },
}

impl Journal {
    ghost use Rattle.pm_journal.specs.Journal.{area_of, limit_of, length_of, gate_of, IsSpent, IsUsable, IsReady, IsAt, IsTied};
    ghost use Rattle.pm_journal.specs.Opening.{IsOpened};
    ghost use Rattle.pm_journal.specs.Reading.{IsNext, IsClosedGate};
    ghost use Rattle.pm_journal.specs.Refusals.{is_store_fault, RefusesToOpen, RefusesNext, RefusesToAppend};

    /// Opens the journal in this area, which may get as long as `limit` bytes.
    pub fn open<D: Disk>(
        alloc: Global,
        disk: &mut D,
        area: Area,
        limit: u64,
    ) -> Result<Journal, JournalError>
        requires { limit ≤ 2 ^ 32 }

        ensures opened { D.IsTold → IfOk result (λ journal. IsOpened limit (of (D.told disk.old).now area).seen journal (of (D.told disk.new).now area)) }
        ensures tied { D.IsTold → IfOk result (λ journal. IsTied journal (of (D.told disk.new).now area)) }
        ensures usable { IfOk result (λ journal. IsUsable journal) }
        ensures place { IfOk result (λ journal. (area_of journal ≡ area) × (limit_of journal ≡ limit)) }
        ensures any_moment { D.IsTold → Throughout (KeepsLists area (D.told disk.old).now) (D.told disk.old) (D.told disk.new) }

        // An area of over 9 bytes isn't touched, whatever the call answers.
        ensures untouched { D.IsTold → 9 < length (of (D.told disk.old).now area).seen
            → Throughout (KeepsArea area (D.told disk.old).now) (D.told disk.old) (D.told disk.new) }

        ensures refused { IfErr result (RefusesToOpen D.IsTold limit area (D.told disk.old) (D.told disk.new)) }
        ensures faults { D.faults disk.new ≡ faults_after (is_store_fault result) (D.faults disk.old) }
    {
        let length = begin(disk, area, limit)?;
        Ok(Journal {
            alloc,
            area,
            limit,
            at: 8,
            length,
            phase: Phase::Reading,
        })
    }

    /// Hands out the next item. None at the closed gate: what follows it is cut off, and items may be added.
    pub fn next<D: Disk>(&mut self, disk: &mut D) -> Result<Option<Item>, JournalError>
        requires usable { IsUsable self.old }
        requires tied { D.IsTold → IsTied self.old (of (D.told disk.old).now (area_of self.old)) }

        ensures next { D.IsTold → (given left : List (List ℕ)) → IsAt self.old (of (D.told disk.old).now (area_of self.old)) given left
            → IfOk result (λ next. IsNext next self.old self.new (of (D.told disk.old).now (area_of self.old)) (of (D.told disk.new).now (area_of self.old)) given left) }
        ensures tied { D.IsTold → OnOk result (IsTied self.new (of (D.told disk.new).now (area_of self.old))) }
        ensures usable { OnOk result (IsUsable self.new) }
        ensures ready { IfOk result (λ next. IsNone next → IsReady self.new) }
        ensures on { IfOk result (λ next. IsSome next → gate_of self.old < gate_of self.new) }
        ensures place { (area_of self.new ≡ area_of self.old) × (limit_of self.new ≡ limit_of self.old) }
        ensures any_moment { D.IsTold → Throughout (KeepsLists (area_of self.old) (D.told disk.old).now) (D.told disk.old) (D.told disk.new) }

        ensures refused { IfErr result (RefusesNext D.IsTold self.old self.new (D.told disk.old) (D.told disk.new)) }
        ensures faults { D.faults disk.new ≡ faults_after (is_store_fault result) (D.faults disk.old) }
    {
        match find(self.alloc, disk, self.area, self.at, self.length) {
            Ok(Found::Block(bytes)) => {
                let offset = self.at;
                self.at = offset + 5 + bytes.len() as u64;
                self.phase = Phase::Reading;
                let bytes = Blob::from_vec(bytes);
                Ok(Some(Item { offset, bytes }))
            }
            Ok(Found::End) => self.end(disk),
            Err(JournalError::StoreFault) => {
                self.phase = Phase::Spent;
                Err(JournalError::StoreFault)
            }
            Err(e) => Err(e),
        }
    }

    /// The offset of the gate that it has come to.
    pub fn gate(&self) -> u64
        ensures { result ≡ gate_of self.now }
    {
        self.at
    }

    // Cuts what follows the closed gate.
    fn end<D: Disk>(&mut self, disk: &mut D) -> Result<Option<Item>, JournalError>
        requires usable { IsUsable self.old }
        requires tied { D.IsTold → IsTied self.old (of (D.told disk.old).now (area_of self.old)) }
        requires closed { D.IsTold → IsClosedGate (drop (gate_of self.old) (of (D.told disk.old).now (area_of self.old)).seen) }

        ensures next { D.IsTold → (given left : List (List ℕ)) → IsAt self.old (of (D.told disk.old).now (area_of self.old)) given left
            → IfOk result (λ next. IsNext next self.old self.new (of (D.told disk.old).now (area_of self.old)) (of (D.told disk.new).now (area_of self.old)) given left) }
        ensures tied { D.IsTold → OnOk result (IsTied self.new (of (D.told disk.new).now (area_of self.old))) }
        ensures usable { OnOk result (IsUsable self.new) }
        ensures ready { IfOk result (λ next. IsReady self.new) }
        ensures none { IfOk result (λ next. IsNone next) }
        ensures place { (area_of self.new ≡ area_of self.old) × (limit_of self.new ≡ limit_of self.old) }
        ensures any_moment { D.IsTold → Throughout (KeepsLists (area_of self.old) (D.told disk.old).now) (D.told disk.old) (D.told disk.new) }
        ensures refused { IfErr result (λ e. (e ≡ JournalError.StoreFault) × IsSpent self.new) }
        ensures faults { D.faults disk.new ≡ faults_after (is_store_fault result) (D.faults disk.old) }
    {
        match cut_to(disk, self.area, self.at + 1) {
            Ok(()) => {
                self.length = self.at + 1;
                self.phase = Phase::Ready;
                Ok(None)
            }
            Err(Failed) => {
                self.phase = Phase::Spent;
                Err(JournalError::StoreFault)
            }
        }
    }

    /// Adds an item. It counts once the call has answered Ok, whatever happens after it. No memory is taken.
    pub fn append<D: Disk>(&mut self, disk: &mut D, bytes: &[u8]) -> Result<(), JournalError>
        requires ready { IsReady self.old }
        requires tied { D.IsTold → IsTied self.old (of (D.told disk.old).now (area_of self.old)) }

        ensures added { D.IsTold → (items : List (List ℕ)) → IsAt self.old (of (D.told disk.old).now (area_of self.old)) items []
            → OnOk result (IsAt self.new (of (D.told disk.new).now (area_of self.old)) (items ++ bytes.now ∷ []) []) }
        ensures grown { D.IsTold → OnOk result ((of (D.told disk.new).now (area_of self.old)).seen
            ≡ with_item (of (D.told disk.old).now (area_of self.old)).seen (gate_of self.old) bytes.now) }
        ensures tied { D.IsTold → OnOk result (IsTied self.new (of (D.told disk.new).now (area_of self.old))) }
        ensures ready { OnOk result (IsReady self.new) }
        ensures longer { OnOk result ((length_of self.new ≡ length_of self.old + 5 + length bytes.now) × (length_of self.new ≤ limit_of self.old)) }
        ensures place { (area_of self.new ≡ area_of self.old) × (limit_of self.new ≡ limit_of self.old) }

        // At every moment of the call each image has the list from before it, or that with the item.
        ensures any_moment { D.IsTold → (items : List (List ℕ)) → IsAt self.old (of (D.told disk.old).now (area_of self.old)) items []
            → Throughout (HasEither (area_of self.old) (D.told disk.old).now items (items ++ bytes.now ∷ [])) (D.told disk.old) (D.told disk.new) }

        ensures refused { IfErr result (RefusesToAppend D.IsTold (length bytes.now) self.old self.new (D.told disk.old) (D.told disk.new)) }
        ensures faults { D.faults disk.new ≡ faults_after (is_store_fault result) (D.faults disk.old) }
    {
        let length = self.length;
        let need = length + 5 + bytes.len() as u64;
        if need > self.limit {
            return Err(JournalError::StoreFull { length, need });
        }
        match add(disk, self.area, length - 1, bytes) {
            Ok(()) => {
                self.at = need - 1;
                self.length = need;
                Ok(())
            }
            Err(Failed) => {
                self.phase = Phase::Spent;
                Err(JournalError::StoreFault)
            }
        }
    }

    /// The length of the area, in bytes.
    pub fn length(&self) -> u64
        requires { IsUsable self.now }
        ensures { result ≡ length_of self.now }
    {
        self.length
    }
}
