//! The bodies of what stands, as they are shown.
ghost use Rattle.std.specs.Prelude.{◌≡◌, ℕ, List, true, IfOk, is_some, option_and_then};
ghost use Rattle.pm_form.specs.Names.{job_id};
ghost use Rattle.pm_jobs.specs.Content.{is_unlocked};
ghost use Rattle.pm_jobs.specs.Rules.{stands, standing_at};
ghost use Rattle.pm_jobs.specs.Plan.{Suits};
ghost use Rattle.pm_jobs.specs.Shown.{shown, shown_text, body_shown, body_planned};
ghost use Rattle.pm_jobs.specs.State.{AreItems};

use crate::planning::find;
use crate::shown::{job_shown, monitor_shown};
use crate::{BodyError, Jobs, Plan, Standing, State, read_job, read_monitor};
use pm_base::Blob;
use pm_history::Side;
use std::alloc::{AllocError, Global};

fn state(unlocked: bool) -> State
    ensures { is_unlocked result ≡ unlocked }
{
    if unlocked {
        State::Unlocked
    } else {
        State::Locked
    }
}

fn job_shown_in(alloc: Global, item: &Standing, unlocked: bool) -> Result<Option<Blob>, AllocError>
    requires { job_id item.now.id ≡ true }
    ensures { IfOk result (λ o. o ≡ shown_text Side.Job item.now.id item.now.body unlocked) }
{
    match read_job(alloc, item.body.as_bytes()) {
        Ok(mut body) => {
            body.state = state(unlocked);
            let text = job_shown(alloc, item.id.as_bytes(), &body)?;
            Ok(Some(text))
        }
        Err(BodyError::Memory) => Err(AllocError),
        Err(_) => Ok(None),
    }
}

fn monitor_shown_in(
    alloc: Global,
    item: &Standing,
    unlocked: bool,
) -> Result<Option<Blob>, AllocError>
    requires { job_id item.now.id ≡ true }
    ensures { IfOk result (λ o. o ≡ shown_text Side.Monitor item.now.id item.now.body unlocked) }
{
    match read_monitor(alloc, item.body.as_bytes()) {
        Ok(mut body) => {
            body.state = state(unlocked);
            let text = monitor_shown(alloc, item.id.as_bytes(), &body)?;
            Ok(Some(text))
        }
        Err(BodyError::Memory) => Err(AllocError),
        Err(_) => Ok(None),
    }
}

// An item's body, in a state.
fn item_shown_in(
    alloc: Global,
    side: Side,
    item: &Standing,
    unlocked: bool,
) -> Result<Option<Blob>, AllocError>
    requires { job_id item.now.id ≡ true }
    ensures { IfOk result (λ o. o ≡ shown_text side item.now.id item.now.body unlocked) }
{
    match side {
        Side::Job => job_shown_in(alloc, item, unlocked),
        Side::Monitor => monitor_shown_in(alloc, item, unlocked),
    }
}

// That of what exists under an id.
fn shown_in_state(
    alloc: Global,
    side: Side,
    items: &[Standing],
    id: &[u8],
    unlocked: bool,
) -> Result<Option<Blob>, AllocError>
    requires { AreItems side items.now }
    ensures { IfOk result (λ o. o ≡ option_and_then (λ (s : Standing). shown_text side s.id s.body unlocked) (standing_at items.now id.now)) }
{
    match find(items, id) {
        Some(place) => item_shown_in(alloc, side, &items[place], unlocked),
        None => Ok(None),
    }
}

fn shown_at(
    alloc: Global,
    side: Side,
    items: &[Standing],
    id: &[u8],
) -> Result<Option<Blob>, AllocError>
    requires { AreItems side items.now }
    ensures { IfOk result (λ o. o ≡ option_and_then (shown side) (standing_at items.now id.now)) }
{
    match find(items, id) {
        Some(place) => item_shown_in(alloc, side, &items[place], items[place].unlocked),
        None => Ok(None),
    }
}

impl Jobs {
    /// The body of what exists under an id, with its id and the state of now.
    pub fn body(&self, alloc: Global, side: Side, id: &[u8]) -> Result<Option<Blob>, AllocError>
        ensures body { IfOk result (λ o. o ≡ body_shown self.now side id.now) }

        // There is one exactly where the id exists on this side.
        ensures exists { IfOk result (λ o. is_some o ≡ stands self.now side id.now) }
    {
        shown_at(alloc, side, self.on(side), id)
    }

    /// The body of what exists under an id once a plan for it is enacted, as it is shown then.
    pub fn body_planned(
        &self,
        alloc: Global,
        side: Side,
        id: &[u8],
        plan: &Plan,
    ) -> Result<Option<Blob>, AllocError>
        requires { Suits self.now plan.now }
        ensures { IfOk result (λ o. o ≡ body_planned self.now side id.now plan.now) }
    {
        match plan {
            Plan::Make { side, standing, .. } => {
                item_shown_in(alloc, *side, standing, standing.unlocked)
            }
            Plan::Same | Plan::Already => self.body(alloc, side, id),
            Plan::Move { unlocked, .. } => {
                shown_in_state(alloc, side, self.on(side), id, *unlocked)
            }
            Plan::Delete { .. } => Ok(None),
        }
    }

    /// What exists has an id of the form of ids. A law: the call does nothing.
    pub fn ids_are_formed(&self)
        ensures { (side : Side) (id : List ℕ) → stands self.now side id ≡ true → job_id id ≡ true }
    {
        let _ = &self.alloc;
    }
}
