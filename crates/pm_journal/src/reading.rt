//! What an area has from a gate on.
ghost use Rattle.std.specs.Prelude.{◌≡◌, ◌<◌, ◌≤◌, ◌+◌, ◌^◌, IfOk, IfSome, IfErr, length, drop};
ghost use Rattle.pm_outside.specs.Causes.{faults_after};
ghost use Rattle.pm_disk.specs.Moments.{of};
ghost use Rattle.pm_journal.specs.Items.{size_bytes};
ghost use Rattle.pm_journal.specs.Refusals.{is_store_fault};
ghost use Rattle.pm_journal.specs.Reading.{FindsAt, FitsBefore, RefusesToFind, RefusesItem, IsItemOrCutShort};

use crate::JournalError;
use crate::appending::OPEN;
use pm_disk::{Area, Disk};
use std::alloc::Global;

#[derive(Drop)]
pub enum Found {
    // An item after an open gate.
    Block(Vec<u8>),
    // A closed gate.
    End,
}

// What an area that ends at `end` has from the gate at this offset on.
pub fn find<D: Disk>(
    alloc: Global,
    disk: &mut D,
    area: Area,
    at: u64,
    end: u64,
) -> Result<Found, JournalError>
    requires inside { at < end }
    requires small { end ≤ 2 ^ 32 }
    requires told { D.IsTold → end ≡ length (of (D.told disk.old).now area).seen }

    ensures found { D.IsTold → IfOk result (FindsAt (drop at (of (D.told disk.old).now area).seen)) }
    ensures fits { IfOk result (FitsBefore at end) }
    ensures told { D.IsTold → D.told disk.new ≡ D.told disk.old }
    ensures refused { IfErr result (RefusesToFind D.IsTold at (drop at (of (D.told disk.old).now area).seen)) }
    ensures faults { D.faults disk.new ≡ faults_after (is_store_fault result) (D.faults disk.old) }
{
    let mut gate = [0; 1];
    disk.read(area, at, &mut gate)?;
    if gate[0] != OPEN {
        return Ok(Found::End);
    }
    match read_item(alloc, disk, area, at + 1, end)? {
        Some(bytes) => Ok(Found::Block(bytes)),
        None => Err(JournalError::Garbled { offset: at }),
    }
}

// The item whose length is at this offset. None where it doesn't end within the area.
fn read_item<D: Disk>(
    alloc: Global,
    disk: &mut D,
    area: Area,
    at: u64,
    end: u64,
) -> Result<Option<Vec<u8>>, JournalError>
    requires inside { at ≤ end }
    requires small { end ≤ 2 ^ 32 }
    requires told { D.IsTold → end ≡ length (of (D.told disk.old).now area).seen }

    ensures item { D.IsTold → IfOk result (IsItemOrCutShort (drop at (of (D.told disk.old).now area).seen)) }
    ensures fits { IfOk result (λ item. IfSome item (λ v. at + 4 + length v.items < end)) }
    ensures told { D.IsTold → D.told disk.new ≡ D.told disk.old }
    ensures refused { IfErr result (RefusesItem D.IsTold (drop at (of (D.told disk.old).now area).seen)) }
    ensures faults { D.faults disk.new ≡ faults_after (is_store_fault result) (D.faults disk.old) }
{
    // The four bytes of the length and the next gate.
    if end - at < 5 {
        return Ok(None);
    }
    let mut size = [0; 4];
    disk.read(area, at, &mut size)?;
    let count = size_of_bytes(&size);
    if end - at - 5 < count as u64 {
        return Ok(None);
    }
    let mut bytes = vec![in alloc; 0; count as usize]?;
    disk.read(area, at + 4, &mut bytes)?;
    Ok(Some(bytes))
}

// The length that four bytes tell, the greatest first.
fn size_of_bytes(size: &[u8; 4]) -> u32
    ensures { size_bytes result ≡ size.now }
{
    u32::from_be_bytes(*size)
}
