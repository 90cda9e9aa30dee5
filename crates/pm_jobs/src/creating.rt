//! What the creation of a job or a monitor comes to.
ghost use Rattle.std.specs.Prelude.{◌≡◌, ◌≤◌, ◌∷◌, [], length, true, false, IfOk, Some, None};
ghost use Rattle.pm_dn.specs.Refusal.{when_broken, first_code};
ghost use Rattle.pm_form.specs.Names.{job_id};
ghost use Rattle.pm_jobs.specs.Asked.{asked_of};
ghost use Rattle.pm_jobs.specs.Plan.{Answers, Creates, Suits, IsOver};
ghost use Rattle.pm_jobs.specs.Rules.{full, stands, is_other, new_refusal, asked_refusal, create_refusal};
ghost use Rattle.pm_jobs.specs.Wanted.{wanted_content};

use crate::jobs::{MOST_LOAD, MOST_STANDING};
use crate::making::made;
use crate::planning::{find, is_same, place_for};
use crate::wanted::{Wanted, read_wanted};
use crate::{BodyError, JobError, Jobs, Plan};
use pm_form::is_job_id;
use pm_history::Side;
use pm_inventory::Inventory;

fn full(side: Side) -> JobError
    ensures { result ≡ full side }
{
    match side {
        Side::Job => JobError::J8,
        Side::Monitor => JobError::J12,
    }
}

impl Jobs {
    // Of what does not stand.
    fn plan_new(
        &self,
        inventory: &Inventory,
        moment: u64,
        side: Side,
        id: &[u8],
        wanted: Wanted,
    ) -> Result<Plan, JobError>
        requires short { length id.now ≤ 32 }
        requires named { job_id id.now ≡ true }
        requires fresh { stands self.now side id.now ≡ false }
        requires back { asked_of side wanted.text ≡ Some (wanted_content wanted) }
        ensures answer { Answers result (asked_refusal inventory.now self.now side (wanted_content wanted)) (λ plan. Creates inventory.now self.now moment side id.now (Some (wanted_content wanted)) plan) }
        ensures suits { IfOk result (Suits self.now) }
        ensures over { IfOk result (IsOver inventory.now) }
    {
        let standing = made(self.alloc, inventory, moment, side, id, wanted)?;
        if self.count(side) as usize >= MOST_STANDING {
            return Err(full(side));
        }
        if standing.load > MOST_LOAD - self.load() {
            return Err(JobError::J9);
        }
        Ok(Plan::Make {
            side,
            place: place_for(self.on(side), id),
            standing,
        })
    }

    fn plan_wanted(
        &self,
        inventory: &Inventory,
        moment: u64,
        side: Side,
        id: &[u8],
        wanted: Wanted,
    ) -> Result<Plan, JobError>
        requires short { length id.now ≤ 32 }
        requires named { job_id id.now ≡ true }
        requires back { asked_of side wanted.text ≡ Some (wanted_content wanted) }
        ensures answer { Answers result (first_code (when_broken (is_other self.now side id.now (Some (wanted_content wanted))) JobError.J2 ∷ new_refusal inventory.now self.now side id.now (Some (wanted_content wanted)) ∷ [])) (λ plan. Creates inventory.now self.now moment side id.now (Some (wanted_content wanted)) plan) }
        ensures suits { IfOk result (Suits self.now) }
        ensures over { IfOk result (IsOver inventory.now) }
    {
        let items = self.on(side);
        match find(items, id) {
            Some(place) => {
                if !is_same(items[place].body.as_bytes(), wanted.text.as_bytes()) {
                    return Err(JobError::J2);
                }
                Ok(Plan::Same)
            }
            None => self.plan_new(inventory, moment, side, id, wanted),
        }
    }

    pub(crate) fn plan_create(
        &self,
        inventory: &Inventory,
        moment: u64,
        side: Side,
        id: &[u8],
        body: &[u8],
    ) -> Result<Plan, JobError>
        ensures answer { Answers result (create_refusal inventory.now self.now side id.now body.now) (λ plan. Creates inventory.now self.now moment side id.now (asked_of side body.now) plan) }
        ensures suits { IfOk result (Suits self.now) }
        ensures over { IfOk result (IsOver inventory.now) }
    {
        if !is_job_id(id) {
            return Err(JobError::J1);
        }
        match read_wanted(self.alloc, side, body) {
            Ok(wanted) => self.plan_wanted(inventory, moment, side, id, wanted),
            Err(BodyError::J1) => Err(JobError::J1),
            Err(BodyError::J11) => match find(self.on(side), id) {
                Some(_) => Err(JobError::J2),
                None => Err(JobError::J11),
            },
            Err(BodyError::Memory) => Err(JobError::Memory),
        }
    }
}
