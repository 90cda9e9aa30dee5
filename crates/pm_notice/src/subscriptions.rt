//! The subscriptions that exist, in byte order of id.
ghost use Rattle.std.specs.Prelude.{◌≡◌, ◌≤◌, ◌<◌, ◌↔◌, ℕ, Bool, List, [], length, map, find, position, vec_len, vec_capacity, Some, None, Ok, IfOk, IfErr, OnErr, Err, true, unwrap_or, option_map, slice_get};
ghost use Rattle.pm_form.specs.Names.{job_id};
ghost use Rattle.pm_notice.specs.Order.{comes_before};
ghost use Rattle.pm_notice.specs.Told.{consumer_content};
ghost use Rattle.pm_notice.specs.Plan.{goes_to};
ghost use Rattle.pm_history.specs.History.{History, Start};
ghost use Rattle.pm_notice.specs.declared.subscription.Subscription.{Subscription};

use crate::consumer::{ReadConsumer, is_consumer, read_consumer};
use crate::{Outcome, SubAsk, SubError, SubPlan, Subscription};
use pm_base::Text;
use pm_form::{ReadError, is_job_id};
use std::alloc::{AllocError, Global};
use std::cmp::Ordering;

/// How many subscriptions may exist.
const MOST: usize = 8;

/// The subscriptions that exist, in byte order of id.
#[derive(Debug, Drop)]
pub struct Subscriptions {
    alloc: Global,
    pub(crate) items: Vec<Subscription>,
    ghost few: { length items.items ≤ 8 },
}

fn is_less(id: &[u8], other: &[u8]) -> bool
    ensures { result ≡ comes_before id.now other.now }
{
    id.cmp(other) == Ordering::Less
}

impl Subscriptions {
    ghost use Rattle.pm_notice.specs.Plan.{has_id, subscription_under, enacted, outcome_of, with_subscription, plan_beside, plan_to_make, plan_to_remove, plan_new, plan_of_stored};
    ghost use Rattle.pm_notice.specs.Planned.{subscriptions_of, IsPlanOf, Answers};
    ghost use Rattle.pm_notice.specs.Asked.{plan_of, MayWantMemory};
    ghost use Rattle.pm_notice.specs.StandFor.{StandFor, cursors_of, with_cursor, planned};

    /// No subscription. It takes no memory.
    pub fn new(alloc: Global) -> Subscriptions
        ensures empty { subscriptions_of result ≡ [] }
        ensures begins { StandFor (subscriptions_of result) Start [] }
    {
        Subscriptions {
            alloc,
            items: Vec::new(alloc),
        }
    }

    /// How many exist.
    pub fn count(&self) -> u8
        ensures { result ≡ length (subscriptions_of self.now) }
    {
        self.items.len() as u8
    }

    /// The one at a place, in byte order of id from 0.
    pub fn at(&self, place: u8) -> &Subscription
        requires { place < length (subscriptions_of self.now) }
        ensures { slice_get (subscriptions_of self.now) place ≡ Some result.now }
    {
        &self.items[place as usize]
    }

    /// Sets the cursor of the one at a place, as a store tells it.
    pub fn set_cursor(&mut self, place: u8, cursor: u64)
        requires { place < length (subscriptions_of self.old) }
        ensures set { subscriptions_of self.new ≡ with_cursor place cursor (subscriptions_of self.old) }
        ensures stand { (h : History) (cursors : List ℕ) → StandFor (subscriptions_of self.old) h cursors → StandFor (subscriptions_of self.new) h (cursors_of (subscriptions_of self.new)) }
    {
        self.items[place as usize].cursor = cursor;
    }

    fn place_of(&self, id: &[u8]) -> Option<usize>
        ensures { result ≡ position (has_id id.now) (subscriptions_of self.now) }
    {
        self.items.iter().position(|s| s.id.as_bytes() == id)
    }

    fn under(&self, id: &[u8]) -> Option<&Subscription>
        ensures { option_map (λ s. s.now) result ≡ subscription_under id.now (subscriptions_of self.now) }
    {
        self.items.iter().find(|s| s.id.as_bytes() == id)
    }

    fn first_after(&self, id: &[u8]) -> Option<usize>
        ensures { result ≡ position (λ s. comes_before id.now s.id) (subscriptions_of self.now) }
    {
        self.items.iter().position(|s| is_less(id, s.id.as_bytes()))
    }

    // The place of the first one whose id is later, or the end.
    fn place_for(&self, id: &[u8]) -> usize
        ensures { result ≡ unwrap_or (position (λ s. comes_before id.now s.id) (subscriptions_of self.now)) (length (subscriptions_of self.now)) }
    {
        match self.first_after(id) {
            Some(place) => place,
            None => self.items.len(),
        }
    }

    // A new subscription of a right id, where none of it exists.
    fn plan_new(
        &mut self,
        id: &[u8],
        port: u16,
        path: Text,
        cursor: u64,
    ) -> Result<SubPlan, SubError>
        requires named { job_id id.now ≡ true }
        requires fresh { subscription_under id.now (subscriptions_of self.old) ≡ None }
        ensures answer { Answers result (plan_new (subscriptions_of self.old) id.now port path cursor) }
        ensures fits { IfOk result (IsPlanOf self.new) }
        ensures stays { subscriptions_of self.new ≡ subscriptions_of self.old }
    {
        if self.items.len() >= MOST {
            return Err(SubError::P1);
        }
        self.items.reserve(1)?;
        let made = Subscription {
            id: Text::from_slice(self.alloc, id)?,
            port,
            path,
            cursor,
        };
        Ok(SubPlan::New { made })
    }

    // A subscription of a consumer, whose id is right.
    fn plan_consumer(
        &mut self,
        id: &[u8],
        cursor: u64,
        consumer: ReadConsumer,
    ) -> Result<SubPlan, SubError>
        requires { job_id id.now ≡ true }
        ensures answer { Answers result (plan_beside (subscriptions_of self.old) id.now cursor (consumer_content consumer) (subscription_under id.now (subscriptions_of self.old))) }
        ensures fits { IfOk result (IsPlanOf self.new) }
        ensures stays { subscriptions_of self.new ≡ subscriptions_of self.old }
    {
        if let Some(subscription) = self.under(id) {
            return if goes_to(&consumer, subscription) {
                Ok(SubPlan::Same)
            } else {
                Err(SubError::P4)
            };
        }
        self.plan_new(id, consumer.port, consumer.path, cursor)
    }

    fn plan_to_make(&mut self, id: &[u8], body: &[u8], cursor: u64) -> Result<SubPlan, SubError>
        ensures answer { Answers result (plan_to_make (subscriptions_of self.old) id.now body.now cursor) }
        ensures fits { IfOk result (IsPlanOf self.new) }
        ensures stays { subscriptions_of self.new ≡ subscriptions_of self.old }
        ensures memory { result ≡ Err SubError.Memory → job_id id.now ≡ true }
    {
        if !is_job_id(id) {
            return Err(SubError::P3);
        }
        match read_consumer(self.alloc, body) {
            Ok(consumer) => self.plan_consumer(id, cursor, consumer),
            Err(ReadError::Refused(_)) => Err(SubError::P3),
            Err(ReadError::Memory) => Err(SubError::Memory),
        }
    }

    fn plan_to_remove(&self, id: &[u8]) -> Result<SubPlan, SubError>
        ensures answer { result ≡ plan_to_remove (subscriptions_of self.now) id.now }
        ensures fits { IfOk result (IsPlanOf self.now) }
    {
        match self.place_of(id) {
            Some(place) => Ok(SubPlan::Deleted { place: place as u8 }),
            None => Err(SubError::P2),
        }
    }

    /// What a change does, or the first rule that refuses it. It takes the room that the change needs.
    pub fn plan(&mut self, ask: &SubAsk<'_>) -> Result<SubPlan, SubError>
        ensures answer { Answers result (plan_of (subscriptions_of self.old) ask.now) }
        ensures fits { IfOk result (IsPlanOf self.new) }
        ensures stays { subscriptions_of self.new ≡ subscriptions_of self.old }

        // No memory is wanted for what is refused by its id, nor for a removal.
        ensures memory { result ≡ Err SubError.Memory → MayWantMemory ask.now }
    {
        match *ask {
            SubAsk::Make { id, body, cursor } => self.plan_to_make(id, body, cursor),
            SubAsk::Remove { id } => self.plan_to_remove(id),
        }
    }

    /// What a subscription does that a store tells, where its cursor is this. It takes the room that this needs.
    pub fn plan_stored(
        &mut self,
        id: &[u8],
        port: u16,
        path: &[u8],
        cursor: u64,
    ) -> Result<SubPlan, SubError>
        ensures answer { Answers result (plan_of_stored (subscriptions_of self.old) id.now port path.now cursor) }
        ensures fits { IfOk result (IsPlanOf self.new) }
        ensures stays { subscriptions_of self.new ≡ subscriptions_of self.old }
    {
        if !is_job_id(id) || !is_consumer(port, path) {
            return Err(SubError::P3);
        }
        if self.under(id).is_some() {
            return Err(SubError::P4);
        }
        let path = Text::from_slice(self.alloc, path)?;
        self.plan_new(id, port, path, cursor)
    }

    fn insert(&mut self, made: Subscription)
        requires { IsPlanOf self.old (SubPlan.New made) }
        ensures { subscriptions_of self.new ≡ with_subscription made (subscriptions_of self.old) }
    {
        let place = self.place_for(made.id.as_bytes());
        match self.items.insert(place, made) {
            Ok(()) => {}
            Err(_) => unreachable!(),
        }
    }

    /// Does what was planned. It takes no memory.
    pub fn enact(&mut self, plan: SubPlan) -> Outcome
        requires { IsPlanOf self.old plan }
        ensures outcome { result ≡ outcome_of plan }
        ensures done { subscriptions_of self.new ≡ enacted plan (subscriptions_of self.old) }

        // One entry of a history, or none.
        ensures stand { (h : History) (cursors : List ℕ) (moment : ℕ) → StandFor (subscriptions_of self.old) h cursors → StandFor (subscriptions_of self.new) (planned (subscriptions_of self.old) plan moment h) (cursors_of (subscriptions_of self.new)) }
    {
        match plan {
            SubPlan::New { made } => {
                self.insert(made);
                Outcome::New
            }
            SubPlan::Same => Outcome::Same,
            SubPlan::Deleted { place } => {
                let _gone = self.items.remove(place as usize);
                Outcome::Deleted
            }
        }
    }
}

fn goes_to(consumer: &ReadConsumer, subscription: &Subscription) -> bool
    ensures { result ≡ goes_to (consumer_content consumer.now) subscription.now }
{
    subscription.port == consumer.port && subscription.path.as_bytes() == consumer.path.as_bytes()
}
