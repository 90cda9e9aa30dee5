//! The jobs and monitors that stand.
ghost use Rattle.std.specs.Prelude.{◌≡◌, ◌<◌, ◌≤◌, [], length, insert, remove, IfOk, slice_get, Some};
ghost use Rattle.arrayvec.specs.ArrayVec.{array_vec_len};
ghost use Rattle.pm_history.specs.History.{History, grown};
ghost use Rattle.pm_inventory.specs.Inventory.{InventoryState};
ghost use Rattle.pm_jobs.specs.Plan.{Answers, IsPlan, Suits, HasRoom, IsOver, with_state, moved_at, jobs_after, outcome_of, entries_of};
ghost use Rattle.pm_jobs.specs.Rules.{refusal};
ghost use Rattle.pm_jobs.specs.State.{on, with_on, load_of as load, load_on, AreItems};
ghost use Rattle.pm_jobs.specs.Stands.{AllKeep, Stands};

use crate::{Ask, JobError, Outcome, Plan, Standing};
use arrayvec::ArrayVec;
use pm_history::Side;
use pm_inventory::Inventory;
use std::alloc::Global;
use std::marker::Model;

/// The most jobs, and the most monitors.
pub const MOST_STANDING: usize = 32;

/// The most load of all that stand.
pub const MOST_LOAD: u64 = 4_194_304;

/// The jobs and monitors that stand, each in byte order of id, as a history makes, changes and deletes them.
#[derive(Drop)]
pub struct Jobs {
    pub(crate) alloc: Global,
    jobs: ArrayVec<Standing, MOST_STANDING, Global>,
    monitors: ArrayVec<Standing, MOST_STANDING, Global>,
}

impl Model for Jobs {
    ghost use Rattle.std.specs.Prelude.{◌+◌, ◌≤◌};
    ghost use Rattle.pm_history.specs.declared.entry.Side.TheVariants.{Job, Monitor};
    ghost use Rattle.pm_jobs.specs.State.{JobsState, IsSide, load_of};

    ghost Value = { JobsState };

    ghost view = { λ j. record { jobs = j.jobs.items; monitors = j.monitors.items } };

    ghost invariant = { λ j. IsSide Job j.jobs.items × IsSide Monitor j.monitors.items × (load_of j.jobs.items + load_of j.monitors.items ≤ 4194304) };
}

impl Jobs {
    /// None. It takes no memory.
    pub fn new(alloc: Global) -> Jobs
        ensures none { result ≡ record { jobs = []; monitors = [] } }
    {
        Jobs {
            alloc,
            jobs: ArrayVec::new_in(alloc),
            monitors: ArrayVec::new_in(alloc),
        }
    }

    pub(crate) fn on(&self, side: Side) -> &[Standing]
        ensures items { result.now ≡ on side self.now }
        ensures each { AreItems side result.now }
    {
        match side {
            Side::Job => self.jobs.as_slice(),
            Side::Monitor => self.monitors.as_slice(),
        }
    }

    /// How many stand.
    pub fn count(&self, side: Side) -> u8
        ensures { result ≡ length (on side self.now) }
    {
        match side {
            Side::Job => self.jobs.len() as u8,
            Side::Monitor => self.monitors.len() as u8,
        }
    }

    /// The one at this place in byte order of id.
    pub fn at(&self, side: Side, place: u8) -> &Standing
        requires { place < length (on side self.now) }
        ensures { slice_get (on side self.now) place ≡ Some result.now }
    {
        &self.on(side)[place as usize]
    }

    /// The load of all that stand.
    pub fn load(&self) -> u64
        ensures value { result ≡ load_on self.now }
        ensures most { result ≤ MOST_LOAD }
    {
        load_of(&self.jobs) + load_of(&self.monitors)
    }

    /// What a request comes to at a moment, or the first rule that it breaks. It takes all memory that enacting it needs, and
    /// the plan may be enacted on these jobs.
    pub fn plan(
        &self,
        inventory: &Inventory,
        moment: u64,
        side: Side,
        ask: &Ask,
    ) -> Result<Plan, JobError>
        ensures answer { Answers result (refusal inventory.now self.now side ask.now) (λ plan. IsPlan inventory.now self.now moment side ask.now plan) }
        ensures ready { IfOk result (λ plan. Suits self.now plan × IsOver inventory.now plan) }
    {
        match ask {
            Ask::Create { id, body } => self.plan_create(inventory, moment, side, id, body),
            Ask::State { id, body } => self.plan_state(moment, side, id, body),
            Ask::Delete { id } => self.plan_delete(moment, side, id),
        }
    }

    /// Does what a plan says. It takes no memory.
    pub fn enact(&mut self, plan: Plan) -> Outcome
        requires { Suits self.old plan }
        ensures outcome { result ≡ outcome_of plan }
        ensures after { self.new ≡ jobs_after self.old plan }

        // Jobs that stand for a history stand for it with the one entry that the plan is, if any.
        ensures stands { (inventory : InventoryState) (h : History) → Stands inventory self.old h → IsOver inventory plan → Stands inventory self.new (grown h (entries_of self.old plan)) }

        // What is kept is what bodies ask for, whatever the history.
        ensures keep { (inventory : InventoryState) → AllKeep inventory self.old → IsOver inventory plan → AllKeep inventory self.new }
    {
        let _ = &self.alloc;
        match plan {
            Plan::Make {
                side,
                place,
                standing,
            } => {
                self.put(side, place, standing);
                Outcome::New
            }
            Plan::Same => Outcome::Same,
            Plan::Move {
                side,
                place,
                unlocked,
                moment,
            } => {
                self.set_state(side, place, unlocked, moment);
                Outcome::Changed
            }
            Plan::Already => Outcome::Already,
            Plan::Delete {
                side,
                place,
                moment: _,
            } => {
                self.remove(side, place);
                Outcome::Deleted
            }
        }
    }

    fn put(&mut self, side: Side, place: usize, standing: Standing)
        requires { HasRoom self.old side place standing }
        ensures { self.new ≡ with_on side (insert (on side self.old) place standing) self.old }
    {
        match side {
            Side::Job => self.jobs.insert(place, standing),
            Side::Monitor => self.monitors.insert(place, standing),
        }
    }

    fn set_state(&mut self, side: Side, place: usize, unlocked: bool, moment: u64)
        requires { place < length (on side self.old) }
        ensures { self.new ≡ with_on side (moved_at moment unlocked place (on side self.old)) self.old }
    {
        match side {
            Side::Job => set_at(&mut self.jobs, place, unlocked, moment),
            Side::Monitor => set_at(&mut self.monitors, place, unlocked, moment),
        }
    }

    fn remove(&mut self, side: Side, place: usize)
        requires { place < length (on side self.old) }
        ensures { self.new ≡ with_on side (remove (on side self.old) place) self.old }
    {
        let _ = match side {
            Side::Job => self.jobs.remove(place),
            Side::Monitor => self.monitors.remove(place),
        };
    }
}

fn load_of(items: &ArrayVec<Standing, MOST_STANDING, Global>) -> u64
    requires { load items.now.items ≤ MOST_LOAD }
    ensures { result ≡ load items.now.items }
{
    let mut sum = 0;
    for item in items.as_slice() {
        sum += item.load;
    }
    sum
}

fn set_at(
    items: &mut ArrayVec<Standing, MOST_STANDING, Global>,
    place: usize,
    unlocked: bool,
    moment: u64,
)
    requires { place < array_vec_len items.old }
    ensures { items.new.items ≡ moved_at moment unlocked place items.old.items }
{
    if let Some(item) = items.get_mut(place) {
        set_state(item, unlocked, moment);
    }
}

fn set_state(item: &mut Standing, unlocked: bool, moment: u64)
    ensures { item.new ≡ with_state moment unlocked item.old }
{
    item.unlocked = unlocked;
    item.changed = moment;
    if unlocked {
        item.armed = moment;
    }
}
