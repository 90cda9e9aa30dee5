//! Where a job or a monitor stands.
ghost use Rattle.std.specs.Prelude.{◌≡◌, ◌<◌, false, length, MatchOption, Some, IfSome, slice_get};
ghost use Rattle.std.specs.Str.{bytes_eq};
ghost use Rattle.pm_jobs.specs.State.{on, ids_on};
ghost use Rattle.pm_jobs.specs.Rules.{standing_at, stands};

use pm_history::Side;
use pm_jobs::Jobs;

fn is_same(a: &[u8], b: &[u8]) -> bool
    ensures { result ≡ bytes_eq a.now b.now }
{
    a == b
}

/// The place of what stands under an id, in byte order of id.
pub fn find(jobs: &Jobs, side: Side, id: &[u8]) -> Option<u8>
    ensures none { MatchOption result (stands jobs.now side id.now ≡ false) (λ place. standing_at (on side jobs.now) id.now ≡ slice_get (on side jobs.now) place) }
    ensures place { IfSome result (λ place. slice_get (ids_on side jobs.now) place ≡ Some id.now) }
    ensures within { IfSome result (λ place. place < length (on side jobs.now)) }
{
    for place in 0..jobs.count(side) {
        if is_same(id, jobs.at(side, place).id.as_bytes()) {
            return Some(place);
        }
    }
    None
}
