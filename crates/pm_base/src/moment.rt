//! Moments and ticks.
ghost use Rattle.std.specs.Prelude.{◌≡◌};
ghost use Rattle.pm_base.specs.Moment.{tick_of};

/// The last moment, 9999-12-31 23:59:59 UTC. A moment is a count of whole seconds since 1970-01-01 00:00 UTC.
pub const LAST_MOMENT: u64 = 253_402_300_799;

/// The seconds of a tick, the shortest period that is measured.
pub const TICK_SECONDS: u64 = 60;

/// The tick that a moment lies in, numbered from 0 at 1970-01-01 00:00 UTC.
pub fn tick(moment: u64) -> u64
    ensures { result ≡ tick_of moment }
{
    moment / TICK_SECONDS
}
