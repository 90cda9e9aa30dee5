//! With what a request begins.
ghost use Rattle.std.specs.Prelude.{◌≤◌};
ghost use Rattle.pm_base.specs.declared.moment.TheConstants.{LAST_MOMENT};

use crate::closing::Ended;
use pm_base::Blob;

/// The most seconds between two requests of which what happened meanwhile is known: a day.
pub const MOST_GAP: u64 = 86_400;

/// What a request begins with, and all memory that entering it takes.
#[derive(Drop)]
pub struct Prepared {
    pub(crate) moment: u64,
    /// The bytes of its item; none where the tick of the last moment goes on.
    pub item: Option<Blob>,
    /// What comes of the ticks that end; none where that tick goes on.
    pub(crate) ended: Option<Ended>,
    ghost in_range: { moment ≤ LAST_MOMENT },
}
