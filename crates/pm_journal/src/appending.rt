//! The two steps of adding an item: it is put after the closed gate, and then the gate is opened.
ghost use Rattle.std.specs.Prelude.{◌≡◌, ◌<◌, ◌≤◌, ◌+◌, ◌^◌, ◌++◌, [], ◌∷◌, List, ℕ, length, set, take, OnOk};
ghost use Rattle.std.specs.Result.{is_err};
ghost use Rattle.pm_outside.specs.Causes.{faults_after};
ghost use Rattle.pm_disk.specs.Area.{clean};
ghost use Rattle.pm_disk.specs.Moments.{of, Throughout};
ghost use Rattle.pm_journal.specs.Items.{prefix, size_bytes, EachFits};
ghost use Rattle.pm_journal.specs.Lists.{HasEither};
ghost use Rattle.pm_journal.specs.Journal.{IsAtEnd};
ghost use Rattle.pm_journal.specs.Appending.{IsCleanTo, IsStaging, IsOpening, IsCutting};

use pm_disk::{Area, Disk};
use pm_outside::Failed;

const CLOSED: u8 = 0;

/// The value of an open gate.
pub const OPEN: u8 = 1;

// Puts an item after the closed gate at this offset, and then opens the gate.
pub fn add<D: Disk>(disk: &mut D, area: Area, gate: u64, bytes: &[u8]) -> Result<(), Failed>
    requires small { gate + 6 + length bytes.now ≤ 2 ^ 32 }
    requires clean { D.IsTold → IsCleanTo (gate + 1) (of (D.told disk.old).now area) }

    ensures stored { D.IsTold → (items : List (List ℕ)) → IsAtEnd (of (D.told disk.old).now area).seen items → gate ≡ length (prefix items)
        → OnOk result (of (D.told disk.new).now area ≡ clean (prefix (items ++ bytes.now ∷ []) ++ 0 ∷ [])) }
    ensures any_moment { D.IsTold → (items : List (List ℕ)) → EachFits items → IsAtEnd (of (D.told disk.old).now area).seen items → gate ≡ length (prefix items)
        → Throughout (HasEither area (D.told disk.old).now items (items ++ bytes.now ∷ [])) (D.told disk.old) (D.told disk.new) }
    ensures faults { D.faults disk.new ≡ faults_after (is_err result) (D.faults disk.old) }
{
    stage(disk, area, gate + 1, bytes)?;
    open_gate(disk, area, gate)
}

// Writes the length, the bytes and a closed gate after what the area has.
fn stage<D: Disk>(disk: &mut D, area: Area, at: u64, bytes: &[u8]) -> Result<(), Failed>
    requires small { at + 5 + length bytes.now ≤ 2 ^ 32 }
    requires clean { D.IsTold → IsCleanTo at (of (D.told disk.old).now area) }

    ensures staged { D.IsTold → OnOk result (of (D.told disk.new).now area
        ≡ clean ((of (D.told disk.old).now area).seen ++ size_bytes (length bytes.now) ++ bytes.now ++ 0 ∷ [])) }
    ensures any_moment { D.IsTold → Throughout (IsStaging area (at + 5 + length bytes.now) (D.told disk.old).now) (D.told disk.old) (D.told disk.new) }
    ensures faults { D.faults disk.new ≡ faults_after (is_err result) (D.faults disk.old) }
{
    let size = bytes_of_size(bytes.len() as u32);
    disk.write_at(area, at, &size)?;
    disk.write_at(area, at + 4, bytes)?;
    disk.write_at(area, at + 4 + bytes.len() as u64, &[CLOSED])?;
    // The item has to be on the disk first: a gate that is torn open before half an item would count.
    disk.sync(area)
}

// Opens the gate of an item that is on the disk.
fn open_gate<D: Disk>(disk: &mut D, area: Area, gate: u64) -> Result<(), Failed>
    requires { D.IsTold → (at : ℕ) × IsCleanTo at (of (D.told disk.old).now area) × (gate < at) }

    ensures opened { D.IsTold → OnOk result (of (D.told disk.new).now area ≡ clean (set (of (D.told disk.old).now area).seen gate 1)) }
    ensures any_moment { D.IsTold → Throughout (IsOpening area gate (D.told disk.old).now) (D.told disk.old) (D.told disk.new) }
    ensures faults { D.faults disk.new ≡ faults_after (is_err result) (D.faults disk.old) }
{
    disk.write_at(area, gate, &[OPEN])?;
    disk.sync(area)
}

// Cuts the area to a length, and puts that on the disk.
pub fn cut_to<D: Disk>(disk: &mut D, area: Area, to: u64) -> Result<(), Failed>
    requires { D.IsTold → (at : ℕ) × IsCleanTo at (of (D.told disk.old).now area) × (to ≤ at) }

    ensures cut { D.IsTold → OnOk result (of (D.told disk.new).now area ≡ clean (take to (of (D.told disk.old).now area).seen)) }
    ensures any_moment { D.IsTold → Throughout (IsCutting area to (D.told disk.old).now) (D.told disk.old) (D.told disk.new) }
    ensures faults { D.faults disk.new ≡ faults_after (is_err result) (D.faults disk.old) }
{
    disk.cut(area, to)?;
    disk.sync(area)
}

// A length in four bytes, the greatest first.
fn bytes_of_size(n: u32) -> [u8; 4]
    ensures { result ≡ size_bytes n }
{
    n.to_be_bytes()
}
