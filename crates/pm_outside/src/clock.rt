//! A clock that is read for the moment of a request.
ghost use Rattle.std.specs.Prelude.{◌≡◌, ◌≤◌, List, ℕ, IfOk};
ghost use Rattle.std.specs.Result.{is_err};
ghost use Rattle.pm_outside.specs.Causes.{faults_after};
ghost use Rattle.pm_outside.specs.Readings.{TakesReading};

use crate::Failed;
use pm_base::LAST_MOMENT;

/// A clock, as the system's.
pub trait Clock {
    /// Whether clocks of this type tell which readings they have left.
    ghost IsTold: { Type 0 };

    /// The readings that are left, first to last, in seconds since 1970-01-01 00:00 UTC. They may be past the last moment.
    ghost left: { Self → List ℕ };

    /// How often it has failed, up to 18,446,744,073,709,551,615.
    ghost faults: { Self → ℕ };

    /// The next reading as a moment, which is the last moment where the reading is past it.
    fn now(&mut self) -> Result<u64, Failed>
        ensures moment { IfOk result (λ moment. moment ≤ LAST_MOMENT) }
        ensures told { IsTold → TakesReading (left self.old) (left self.new) result }
        ensures counted { faults self.new ≡ faults_after (is_err result) (faults self.old) };
}
