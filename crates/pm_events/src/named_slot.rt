//! What a table of slots keeps of a slot.
ghost use Rattle.std.specs.Prelude.{◌≤◌};

use pm_base::Blob;
use pm_meas::Reduce;

/// A slot, as a table keeps it.
#[derive(Debug, Drop)]
pub struct NamedSlot {
    /// The names of the object and the metric, with a space between.
    pub names: Blob,
    /// How many bytes the object's name has.
    pub object: usize,
    /// The metric's reduction.
    pub reduce: Reduce,
    /// Of a DER every n-th event of a tick is registered: its n; 1 of another kind.
    pub registers_each: u16,
    ghost least: { 1 ≤ registers_each },
    ghost most: { registers_each ≤ 1000 },
}
