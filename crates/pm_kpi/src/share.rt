//! What a row adds, and to which key.
ghost use Rattle.std.specs.Prelude.{◌≤◌, ◌*◌, ◌-◌, ◌^◌};

use crate::{Adds, Key};

/// What a row adds, and to which key.
#[derive(Drop)]
pub(crate) struct Share {
    pub key: Key,
    pub adds: Adds,
    ghost small_above: { adds.above ≤ 8 * (2 ^ 64 - 1) },
    ghost small_below: { adds.below ≤ 8 * (2 ^ 64 - 1) },
}
