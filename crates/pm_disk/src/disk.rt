//! A disk of two areas of bytes.
//!
//! Content is told per type: the clauses on content hold where `IsTold` does, which is so for the disk in memory and for no
//! real file. The clauses on faults hold for all.
ghost use Rattle.std.specs.Prelude.{◌≡◌, ◌≤◌, ◌+◌, ℕ, length, take, drop, IfOk, OnOk};
ghost use Rattle.std.specs.Result.{is_err};
ghost use Rattle.pm_outside.specs.Causes.{faults_after};

use crate::Area;
use pm_outside::Failed;

/// A disk that a stop may catch at any moment. Offsets and lengths are in bytes.
pub trait Disk {
    ghost use Rattle.pm_disk.specs.declared.area.Area.{Area};
    ghost use Rattle.pm_disk.specs.Area.{IsWrite, IsCut, IsSync, IsImage};
    ghost use Rattle.pm_disk.specs.Moments.{Told, IsStep, of};

    /// Whether disks of this type tell what they hold.
    ghost IsTold: { Type 0 };

    /// What the disk is now, and what it was at each moment before.
    ghost told: { Self → Told };

    /// How often it has failed: once more in each call that fails, and in no other call.
    ghost faults: { Self → ℕ };

    /// The length of the area.
    fn len(&mut self, area: Area) -> Result<u64, Failed>
        ensures length { IsTold → IfOk result (λ n. n ≡ length (of (told self.old).now area).seen) }
        ensures told { IsTold → told self.new ≡ told self.old }
        ensures faults { faults self.new ≡ faults_after (is_err result) (faults self.old) };

    /// Fills the buffer with the bytes of the area from this offset on.
    fn read(&mut self, area: Area, at: u64, buf: &mut [u8]) -> Result<(), Failed>
        requires { IsTold → at + length buf.old ≤ length (of (told self.old).now area).seen }
        ensures bytes { IsTold → OnOk result (buf.new ≡ take (length buf.old) (drop at (of (told self.old).now area).seen)) }
        ensures told { IsTold → told self.new ≡ told self.old }
        ensures faults { faults self.new ≡ faults_after (is_err result) (faults self.old) };

    /// Writes the bytes from this offset on, over what is there and past the end.
    fn write_at(&mut self, area: Area, at: u64, bytes: &[u8]) -> Result<(), Failed>
        requires { IsTold → at ≤ length (of (told self.old).now area).seen }
        ensures told { IsTold → IsStep area (IsWrite at bytes.now result) (told self.old) (told self.new) }
        ensures faults { faults self.new ≡ faults_after (is_err result) (faults self.old) };

    /// Cuts the area to this length.
    fn cut(&mut self, area: Area, to: u64) -> Result<(), Failed>
        requires { IsTold → to ≤ length (of (told self.old).now area).seen }
        ensures told { IsTold → IsStep area (IsCut to result) (told self.old) (told self.new) }
        ensures faults { faults self.new ≡ faults_after (is_err result) (faults self.old) };

    /// Puts what the area reads on the disk: a stop after it leaves that.
    fn sync(&mut self, area: Area) -> Result<(), Failed>
        ensures told { IsTold → IsStep area (IsSync result) (told self.old) (told self.new) }
        ensures faults { faults self.new ≡ faults_after (is_err result) (faults self.old) };

    /// The disk as it reads is one of its images.
    ghost reads_image: { (disk : Self) (area : Area) → IsTold → IsImage (of (told disk).now area) (of (told disk).now area).seen };
}
