//! The periods that there are.
ghost use Rattle.std.specs.Prelude.{◌≡◌, ◌<◌, true, IsTrue};
ghost use Rattle.pm_jobs.specs.Rules.{is_period, is_reporting};

/// Whether a granularity period, in seconds, is permitted.
pub(crate) fn is_period(seconds: u32) -> bool
    ensures { result ≡ is_period seconds }
{
    seconds == 60 || seconds == 300 || seconds == 900 || seconds == 1_800 || seconds == 3_600
}

/// Whether a reporting period, in minutes, divides a day and is a multiple of the granularity period, in seconds.
pub(crate) fn is_reporting(granularity: u32, minutes: u32) -> bool
    requires { 0 < granularity }
    ensures { result ≡ is_reporting granularity minutes }
{
    0 < minutes && 1_440 % minutes == 0 && (60 * u64::from(minutes)) % u64::from(granularity) == 0
}
