//! What requests come to.
ghost use Rattle.std.specs.Prelude.{◌≡◌, ◌<◌, ◌≤◌, ◌+◌, length, false, IfOk, IfSome, MatchOption, slice_get, Some, None};
ghost use Rattle.std.specs.List.{list_any};
ghost use Rattle.std.specs.Str.{bytes_eq};
ghost use Rattle.std.specs.Ordering.{nat_cmp, is_gt};
ghost use Rattle.std.specs.Cmp.Lexicographic.{slice_cmp};
ghost use Rattle.pm_jobs.specs.Asked.{asked_of};
ghost use Rattle.pm_jobs.specs.Plan.{Answers, Creates, Moves, Deletes, Suits, IsOver, place_of};
ghost use Rattle.pm_jobs.specs.Reading.{state_body};
ghost use Rattle.pm_jobs.specs.Rules.{standing_at, create_refusal, state_refusal, delete_refusal};
ghost use Rattle.pm_jobs.specs.State.{ids};
ghost use Rattle.pm_jobs.specs.Wanted.{wanted_content};

use crate::wanted::is_unlocked;
use crate::{BodyError, JobError, Jobs, Plan, Standing, read_state};
use pm_history::Side;
use std::cmp::Ordering;

pub(crate) fn is_same(a: &[u8], b: &[u8]) -> bool
    ensures { result ≡ bytes_eq a.now b.now }
{
    a == b
}

/// The place of what stands under an id.
pub(crate) fn find(items: &[Standing], id: &[u8]) -> Option<usize>
    ensures none { MatchOption result (standing_at items.now id.now ≡ None) (λ place. standing_at items.now id.now ≡ slice_get items.now place) }
    ensures place { MatchOption result (list_any (bytes_eq id.now) (ids items.now) ≡ false) (λ place. slice_get (ids items.now) place ≡ Some id.now) }
    ensures within { IfSome result (λ place. place < length items.now) }
{
    for (place, item) in items.iter().enumerate() {
        if is_same(id, item.id.as_bytes()) {
            return Some(place);
        }
    }
    None
}

fn is_greater(a: &[u8], b: &[u8]) -> bool
    ensures { result ≡ is_gt (slice_cmp nat_cmp a.now b.now) }
{
    a.cmp(b) == Ordering::Greater
}

// The place before which an id comes in byte order.
pub(crate) fn place_for(items: &[Standing], id: &[u8]) -> usize
    ensures { result ≡ place_of id.now (ids items.now) }
{
    for (place, item) in items.iter().enumerate() {
        if !is_greater(id, item.id.as_bytes()) {
            return place;
        }
    }
    items.len()
}

impl Jobs {
    pub(crate) fn plan_delete(&self, moment: u64, side: Side, id: &[u8]) -> Result<Plan, JobError>
        ensures answer { Answers result (delete_refusal self.now side id.now) (λ plan. Deletes self.now moment side id.now plan) }
        ensures suits { IfOk result (Suits self.now) }
    {
        match find(self.on(side), id) {
            Some(place) => Ok(Plan::Delete {
                side,
                place,
                moment,
            }),
            None => Err(JobError::J10),
        }
    }

    pub(crate) fn plan_state(
        &self,
        moment: u64,
        side: Side,
        id: &[u8],
        body: &[u8],
    ) -> Result<Plan, JobError>
        ensures answer { Answers result (state_refusal self.now side id.now body.now) (λ plan. Moves self.now moment side id.now (state_body body.now) plan) }
        ensures suits { IfOk result (Suits self.now) }
    {
        match read_state(self.alloc, body) {
            Ok(state) => self.plan_move(moment, side, id, is_unlocked(state)),
            Err(BodyError::Memory) => Err(JobError::Memory),
            Err(_) => Err(JobError::J1),
        }
    }

    fn plan_move(
        &self,
        moment: u64,
        side: Side,
        id: &[u8],
        unlocked: bool,
    ) -> Result<Plan, JobError>
        ensures answer { Answers result (delete_refusal self.now side id.now) (λ plan. Moves self.now moment side id.now (Some unlocked) plan) }
        ensures suits { IfOk result (Suits self.now) }
    {
        let items = self.on(side);
        let Some(place) = find(items, id) else {
            return Err(JobError::J10);
        };
        if items[place].unlocked == unlocked {
            return Ok(Plan::Already);
        }
        Ok(Plan::Move {
            side,
            place,
            unlocked,
            moment,
        })
    }
}
