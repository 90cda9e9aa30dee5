//! The opening of an area, up to its first gate.
ghost use Rattle.std.specs.Prelude.{◌≡◌, ◌<◌, ◌≤◌, ◌^◌, ◌++◌, ◌∷◌, [], ◌↔◌, IsTrue, IfOk, OnOk, IfErr, length, take};
ghost use Rattle.std.specs.Result.{is_err};
ghost use Rattle.pm_outside.specs.Causes.{faults_after};
ghost use Rattle.pm_disk.specs.Area.{clean};
ghost use Rattle.pm_disk.specs.Moments.{of, Throughout};
ghost use Rattle.pm_journal.specs.Items.{mark};
ghost use Rattle.pm_journal.specs.Lists.{KeepsArea, KeepsLists};
ghost use Rattle.pm_journal.specs.Appending.{IsCleanTo};
ghost use Rattle.pm_journal.specs.Opening.{IsBegun, IsShort, IsRefreshing};
ghost use Rattle.pm_journal.specs.Refusals.{RefusesToOpen, is_store_fault};

use crate::JournalError;
use pm_disk::{Area, Disk};
use pm_outside::Failed;

const MARK: [u8; 8] = *b"PMDLOG1\n";

/// The mark and a closed gate.
const EMPTY: [u8; 9] = *b"PMDLOG1\n\0";

// Makes an area ready to be read from its first gate, and answers its length.
pub fn begin<D: Disk>(disk: &mut D, area: Area, limit: u64) -> Result<u64, JournalError>
    requires { limit ≤ 2 ^ 32 }

    ensures begun { D.IsTold → IfOk result (λ n. IsBegun limit (of (D.told disk.old).now area).seen (of (D.told disk.new).now area) × (n ≡ length (of (D.told disk.new).now area).seen)) }
    ensures within { IfOk result (λ n. (9 ≤ n) × (n ≤ limit)) }
    ensures any_moment { D.IsTold → Throughout (KeepsLists area (D.told disk.old).now) (D.told disk.old) (D.told disk.new) }
    ensures untouched { D.IsTold → 9 < length (of (D.told disk.old).now area).seen → Throughout (KeepsArea area (D.told disk.old).now) (D.told disk.old) (D.told disk.new) }
    ensures refused { IfErr result (RefusesToOpen D.IsTold limit area (D.told disk.old) (D.told disk.new)) }
    ensures faults { D.faults disk.new ≡ faults_after (is_store_fault result) (D.faults disk.old) }
{
    let n = measure(disk, area)?;
    if n <= EMPTY.len() as u64 {
        if limit < EMPTY.len() as u64 {
            return Err(JournalError::StoreFull { length: 0, need: 9 });
        }
        // Nothing can have been acknowledged in so few bytes.
        refresh(disk, area)?;
        return Ok(9);
    }
    if n > limit {
        return Err(JournalError::Foreign);
    }
    if !is_marked(disk, area)? {
        return Err(JournalError::Foreign);
    }
    Ok(n)
}

// Puts what the area reads on the disk, and answers its length.
fn measure<D: Disk>(disk: &mut D, area: Area) -> Result<u64, Failed>
    ensures clean { D.IsTold → OnOk result (of (D.told disk.new).now area ≡ clean (of (D.told disk.old).now area).seen) }
    ensures length { D.IsTold → IfOk result (λ n. n ≡ length (of (D.told disk.old).now area).seen) }
    ensures untouched { D.IsTold → Throughout (KeepsArea area (D.told disk.old).now) (D.told disk.old) (D.told disk.new) }
    ensures faults { D.faults disk.new ≡ faults_after (is_err result) (D.faults disk.old) }
{
    disk.sync(area)?;
    disk.len(area)
}

// Makes an area of few bytes an empty journal.
fn refresh<D: Disk>(disk: &mut D, area: Area) -> Result<(), Failed>
    requires { D.IsTold → IsShort (of (D.told disk.old).now area) }

    ensures made { D.IsTold → OnOk result (of (D.told disk.new).now area ≡ clean (mark ++ 0 ∷ [])) }
    ensures any_moment { D.IsTold → Throughout (IsRefreshing area (D.told disk.old).now) (D.told disk.old) (D.told disk.new) }
    ensures faults { D.faults disk.new ≡ faults_after (is_err result) (D.faults disk.old) }
{
    disk.cut(area, 0)?;
    disk.write_at(area, 0, &EMPTY)?;
    disk.sync(area)
}

// Whether the area begins with the mark.
fn is_marked<D: Disk>(disk: &mut D, area: Area) -> Result<bool, Failed>
    requires { D.IsTold → 9 < length (of (D.told disk.old).now area).seen }

    ensures marked { D.IsTold → IfOk result (λ b. IsTrue b ↔ (take 8 (of (D.told disk.old).now area).seen ≡ mark)) }
    ensures told { D.IsTold → D.told disk.new ≡ D.told disk.old }
    ensures faults { D.faults disk.new ≡ faults_after (is_err result) (D.faults disk.old) }
{
    let mut head = [0; 8];
    disk.read(area, 0, &mut head)?;
    Ok(head == MARK)
}
