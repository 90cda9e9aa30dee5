//! What a producer keeps of its history.
ghost use Rattle.std.specs.Prelude.{◌≡◌, ◌≤◌, ◌<◌, ◌+◌, ◌++◌, [], true, length, IfOk};
ghost use Rattle.pm_base.specs.Moment.{IsMoment, tick_of};
ghost use Rattle.pm_base.specs.declared.moment.TheConstants.{LAST_MOMENT};
ghost use Rattle.pm_batch.specs.declared.batch.TheConstants.{MOST_BODY};
ghost use Rattle.pm_close.specs.Closer.{ArePaired, closer_tick};
ghost use Rattle.pm_history.specs.declared.entry.Entry.TheVariants.{Boot};
ghost use Rattle.pm_history.specs.History.{History, Start, ◌▷◌};
ghost use Rattle.pm_inventory.specs.Inventory.{slots};
ghost use Rattle.pm_notice.specs.Planned.{subscriptions_of, IsPlanOf};
ghost use Rattle.pm_notice.specs.Round.{are_within};
ghost use Rattle.pm_outside.specs.Causes.{faults_after};
ghost use Rattle.pm_state.specs.declared.opening.TheConstants.{MOST_GAP};

use crate::booked::{booked_bytes, boot_bytes};
use crate::change::{Change, plan_change, show};
use crate::closing::{Closing, Ended, begun};
use crate::files::{list_files, show_file};
use crate::opening::{MOST_GAP, Prepared};
use crate::replies::{accepted, no_memory, refused_at};
use crate::subscribing::{SubChange, cursors, sub_change};
use pm_base::tick;
use pm_batch::{BatchError, OpenEvents};
use pm_history::Side;
use pm_http::Reply;
use pm_inventory::Inventory;
use pm_jobs::{Ask, Jobs};
use pm_notice::{SubAsk, Subscriptions};
use pm_outside::Courier;
use std::alloc::{AllocError, Global};

/// The state of a producer: its inventory, the moment of its last request, its jobs and monitors, its subscriptions, the events of the
/// open tick, and what ends with it.
#[derive(Drop)]
pub struct State {
    alloc: Global,
    inventory: Inventory,
    last: u64,
    jobs: Jobs,
    subs: Subscriptions,
    events: OpenEvents,
    closing: Closing,
    ghost in_range: { last ≤ LAST_MOMENT },
    ghost wide: { closing.closer.cells.slots ≡ length (slots inventory) },
    ghost of_slots: { length events.slots ≡ length (slots inventory) },
    ghost tick: { closer_tick closing.closer ≡ tick_of last },
    ghost paired: { ArePaired jobs closing.closer },
    ghost within: { are_within closing.notices.total (subscriptions_of subs) ≡ true },
}

impl State {
    ghost use Rattle.std.specs.Prelude.{ℕ, Bool, false};
    ghost use Rattle.pm_close.specs.Closer.{IsPrepared as IsFollowed};
    ghost use Rattle.pm_close.specs.DueReports.{ended_by};
    ghost use Rattle.pm_history.specs.History.{grown, IsHistory};
    ghost use Rattle.pm_jobs.specs.Plan.{Suits};
    ghost use Rattle.pm_state.specs.Closing.{IsEnd, MayEnact};
    ghost use Rattle.pm_state.specs.Stands.{StateStands, GivesEvents, IsPrepared, MayEnter, IsOpening};
    ghost use Rattle.pm_state.specs.Opening.{entered};
    ghost use Rattle.pm_state.specs.Given.{Given};
    ghost use Rattle.pm_state.specs.Changes.{change_given, look_given};
    ghost use Rattle.pm_state.specs.FilesGiven.{Shows, IsListGiven, IsFileGiven};
    ghost use Rattle.pm_state.specs.Planned.{IsAnswer, IsChange, IsLook};
    ghost use Rattle.pm_state.specs.SubsGiven.{IsSubAnswer, BeginsWithin, sub_entries};
    ghost use Rattle.pm_notice.specs.Plan.{plan_to_make, plan_to_remove, enacted};
    ghost use Rattle.pm_notice.specs.Round.{AreRounds, rounds_posts, stops, faults_after_stops};

    /// That of a history that begins with a Boot at this moment.
    pub fn new(alloc: Global, inventory: Inventory, moment: u64) -> Result<State, AllocError>
        requires { IsMoment moment }
        ensures stands { IfOk result (StateStands (Start ▷ Boot moment)) }
        ensures inventory { IfOk result (λ state. state.inventory ≡ inventory) }
        ensures subs { IfOk result (λ state. subscriptions_of state.subs ≡ []) }
    {
        let mut events = OpenEvents::new(alloc, &inventory)?;
        let jobs = Jobs::new(alloc);
        let subs = Subscriptions::new(alloc);
        let closing = begun(alloc, &inventory, &jobs, events.cells(), moment)?;
        events.clear();
        Ok(State {
            alloc,
            inventory,
            last: moment,
            jobs,
            subs,
            events,
            closing,
        })
    }

    /// The moment of the last request.
    pub fn last(&self) -> u64
        ensures { result ≡ self.now.last }
    {
        self.last
    }

    // What an entry at this moment comes to: a Boot, or a Now in a later tick. What the state stands for stays.
    fn end(&mut self, moment: u64, boot: bool) -> Result<Ended, AllocError>
        requires moment { IsMoment moment }
        requires later { self.old.last ≤ moment }
        requires after { boot ≡ false → tick_of self.old.last < tick_of moment }
        ensures stays { (h : History) → StateStands h self.old → StateStands h self.new }
        ensures inventory { self.new.inventory ≡ self.old.inventory }
        ensures subs { self.new.subs ≡ self.old.subs }
        ensures last { self.new.last ≡ self.old.last }
        ensures may { IfOk result (MayEnact self.new.closing (tick_of moment)) }
        ensures end { (h : History) → StateStands h self.old → IsHistory (h ▷ ended_by boot moment)
            → IfOk result (IsEnd self.new.inventory self.new.jobs h boot moment self.new.closing) }
    {
        self.closing.end(
            self.alloc,
            &self.inventory,
            &self.jobs,
            self.events.cells(),
            moment,
            boot,
        )
    }

    // A Boot at this moment, after more than a day.
    fn prepare_boot(&mut self, moment: u64) -> Result<Prepared, AllocError>
        requires moment { IsMoment moment }
        requires later { self.old.last ≤ moment }
        requires far { self.old.last + MOST_GAP < moment }
        ensures stays { (h : History) → StateStands h self.old → StateStands h self.new }
        ensures inventory { self.new.inventory ≡ self.old.inventory }
        ensures subs { self.new.subs ≡ self.old.subs }
        ensures last { self.new.last ≡ self.old.last }
        ensures may { IfOk result (MayEnter self.new) }
        ensures prepared { (h : History) → StateStands h self.old → IfOk result (IsOpening self.new h moment) }
    {
        let item = boot_bytes(self.alloc, &self.inventory, moment)?;
        let ended = self.end(moment, true)?;
        Ok(Prepared {
            moment,
            item: Some(item),
            ended: Some(ended),
        })
    }

    // A Now in a later tick.
    fn prepare_now(&mut self, moment: u64) -> Result<Prepared, AllocError>
        requires moment { IsMoment moment }
        requires later { self.old.last ≤ moment }
        requires near { moment ≤ self.old.last + MOST_GAP }
        requires after { tick_of self.old.last < tick_of moment }
        ensures stays { (h : History) → StateStands h self.old → StateStands h self.new }
        ensures inventory { self.new.inventory ≡ self.old.inventory }
        ensures subs { self.new.subs ≡ self.old.subs }
        ensures last { self.new.last ≡ self.old.last }
        ensures may { IfOk result (MayEnter self.new) }
        ensures prepared { (h : History) → StateStands h self.old → IfOk result (IsOpening self.new h moment) }
    {
        let cursors = cursors(self.alloc, &self.subs)?;
        let cells = self.events.cells();
        let item = booked_bytes(self.alloc, moment, tick(self.last), cells, cursors)?;
        let ended = self.end(moment, false)?;
        Ok(Prepared {
            moment,
            item: Some(item),
            ended: Some(ended),
        })
    }

    /// What a request at this moment begins with, with all memory that entering it takes. What the state stands for stays.
    pub fn prepare(&mut self, moment: u64) -> Result<Prepared, AllocError>
        requires { IsMoment moment }
        ensures stays { (h : History) → StateStands h self.old → StateStands h self.new }
        ensures inventory { self.new.inventory ≡ self.old.inventory }
        ensures subs { self.new.subs ≡ self.old.subs }
        ensures last { self.new.last ≡ self.old.last }
        ensures may { IfOk result (MayEnter self.new) }
        ensures prepared { (h : History) → StateStands h self.old → IfOk result (IsPrepared self.new h moment) }
    {
        let moment = moment.max(self.last);
        if moment > self.last + MOST_GAP {
            return self.prepare_boot(moment);
        }
        if tick(moment) > tick(self.last) {
            return self.prepare_now(moment);
        }
        Ok(Prepared {
            moment,
            item: None,
            ended: None,
        })
    }

    /// Enters what a request begins with. It takes no memory.
    pub fn enter(&mut self, prepared: Prepared)
        requires { MayEnter self.old prepared }
        ensures stands { (h : History) (moment : ℕ) → StateStands h self.old → IsPrepared self.old h moment prepared → StateStands (entered h moment) self.new }
        ensures inventory { self.new.inventory ≡ self.old.inventory }
        ensures subs { self.new.subs ≡ self.old.subs }
    {
        let moment = prepared.moment;
        let ended = prepared.ended;
        self.last = moment;
        match ended {
            Some(ended) => {
                self.events.clear();
                self.closing.enact(moment, ended);
            }
            None => {}
        }
    }

    /// What a request on a job or a monitor comes to.
    pub fn plan(&self, side: Side, ask: &Ask) -> Result<Change, Reply>
        ensures { IsAnswer self.now.inventory self.now.jobs self.now.closing.closer self.now.last (change_given self.now.inventory self.now.jobs self.now.last side ask.now) result }
    {
        plan_change(
            self.alloc,
            &self.inventory,
            &self.jobs,
            &self.closing.closer,
            self.last,
            side,
            ask,
        )
    }

    /// Does what a change says. It takes no memory.
    pub fn enact(&mut self, change: Change) -> Reply
        requires suits { Suits self.old.jobs change.plan }
        requires followed { IsFollowed self.old.inventory self.old.closing.closer change.plan change.made }
        ensures stands { (h : History) (given : Given) → StateStands h self.old
            → IsChange self.old.inventory self.old.jobs self.old.closing.closer self.old.last given change
            → (result ≡ given.reply) × StateStands (grown h given.entries) self.new }
        ensures inventory { self.new.inventory ≡ self.old.inventory }
        ensures subs { self.new.subs ≡ self.old.subs }
        ensures last { self.new.last ≡ self.old.last }
    {
        let made = change.made;
        self.closing
            .closer
            .follow(&self.inventory, &self.jobs, &change.plan, made);
        self.jobs.enact(change.plan);
        change.reply
    }

    /// The body of a job or a monitor, or that none exists.
    pub fn show(&self, side: Side, id: &[u8]) -> Reply
        ensures { IsLook (look_given self.now.jobs side id.now) result }
    {
        show(self.alloc, &self.jobs, side, id)
    }

    /// The listing of the files that a query shows.
    pub fn list_files(&self, query: &[u8]) -> Reply
        ensures { (h : History) → StateStands h self.now → Shows (IsListGiven self.now.inventory h query.now) result }
    {
        list_files(self.alloc, &self.closing.files, query)
    }

    /// The file of a name, or that none is listed.
    pub fn show_file(&self, name: &[u8]) -> Reply
        ensures { (h : History) → StateStands h self.now → Shows (IsFileGiven self.now.inventory h name.now) result }
    {
        show_file(self.alloc, &self.closing.files, name)
    }

    /// What a request for a subscription comes to: a new one begins at the number of notices. What the state stands for stays.
    pub fn subscribe(&mut self, id: &[u8], body: &[u8]) -> Result<SubChange, Reply>
        ensures stays { (h : History) → StateStands h self.old → StateStands h self.new }
        ensures answer { IsSubAnswer (subscriptions_of self.old.subs) self.new.subs self.old.last id.now
            (plan_to_make (subscriptions_of self.old.subs) id.now body.now self.old.closing.notices.total) result }
        ensures begins { IfOk result (λ change. BeginsWithin self.new.closing.notices.total change.plan) }
        ensures subs { subscriptions_of self.new.subs ≡ subscriptions_of self.old.subs }
        ensures inventory { self.new.inventory ≡ self.old.inventory }
        ensures last { self.new.last ≡ self.old.last }
    {
        let cursor = self.closing.notices.total();
        let plan = self.subs.plan(&SubAsk::Make { id, body, cursor });
        sub_change(self.alloc, &self.subs, self.last, id, plan)
    }

    /// What a request to end a subscription comes to. What the state stands for stays.
    pub fn unsubscribe(&mut self, id: &[u8]) -> Result<SubChange, Reply>
        ensures stays { (h : History) → StateStands h self.old → StateStands h self.new }
        ensures answer { IsSubAnswer (subscriptions_of self.old.subs) self.new.subs self.old.last id.now
            (plan_to_remove (subscriptions_of self.old.subs) id.now) result }
        ensures begins { IfOk result (λ change. BeginsWithin self.new.closing.notices.total change.plan) }
        ensures subs { subscriptions_of self.new.subs ≡ subscriptions_of self.old.subs }
        ensures inventory { self.new.inventory ≡ self.old.inventory }
        ensures last { self.new.last ≡ self.old.last }
    {
        let plan = self.subs.plan(&SubAsk::Remove { id });
        sub_change(self.alloc, &self.subs, self.last, id, plan)
    }

    /// Does what a change of the subscriptions says. It takes no memory.
    pub fn enact_subscription(&mut self, change: SubChange) -> Reply
        requires fits { IsPlanOf self.old.subs change.plan }
        requires begins { BeginsWithin self.old.closing.notices.total change.plan }
        ensures reply { result ≡ change.reply }
        ensures stands { (h : History) → StateStands h self.old
            → StateStands (grown h (sub_entries (subscriptions_of self.old.subs) self.old.last change.plan)) self.new }
        ensures subs { subscriptions_of self.new.subs ≡ enacted change.plan (subscriptions_of self.old.subs) }
        ensures inventory { self.new.inventory ≡ self.old.inventory }
        ensures last { self.new.last ≡ self.old.last }
    {
        let _done = self.subs.enact(change.plan);
        change.reply
    }

    /// Posts the notices that are due: one round for each subscription. It takes no memory.
    pub fn deliver<P: Courier>(&mut self, courier: &mut P)
        ensures stays { (h : History) → StateStands h self.old → StateStands h self.new }
        ensures rounds { AreRounds self.old.closing.notices.kept self.old.closing.notices.total self.old.last
            (subscriptions_of self.old.subs) (subscriptions_of self.new.subs) }
        ensures posted { P.IsTold → P.posts courier.new ≡ P.posts courier.old
            ++ rounds_posts self.old.closing.notices.kept self.old.last (subscriptions_of self.old.subs) (subscriptions_of self.new.subs) }
        ensures counted { P.faults courier.new
            ≡ faults_after_stops (stops self.old.closing.notices.total (subscriptions_of self.new.subs)) (P.faults courier.old) }
        ensures closing { self.new.closing ≡ self.old.closing }
        ensures inventory { self.new.inventory ≡ self.old.inventory }
        ensures last { self.new.last ≡ self.old.last }
    {
        let total = self.closing.notices.total();
        let notices = self.closing.notices.as_slice();
        self.subs.deliver(notices, total, self.last, courier);
    }

    /// Counts a batch of events, where it is accepted.
    pub fn take_events(&mut self, body: &[u8]) -> Reply
        requires { length body.now ≤ MOST_BODY }
        ensures stands { (h : History) → StateStands h self.old → GivesEvents self.old.inventory h body.now result self.new }
        ensures inventory { self.new.inventory ≡ self.old.inventory }
        ensures subs { self.new.subs ≡ self.old.subs }
        ensures last { self.new.last ≡ self.old.last }
    {
        match self.events.read(body) {
            Ok(lines) => match accepted(self.alloc, lines) {
                Ok(reply) => {
                    self.events.count();
                    reply
                }
                Err(AllocError) => {
                    self.events.forget();
                    no_memory(self.alloc)
                }
            },
            Err(BatchError::Refused { line, code }) => refused_at(self.alloc, code, line),
            Err(BatchError::Memory) => no_memory(self.alloc),
        }
    }
}
