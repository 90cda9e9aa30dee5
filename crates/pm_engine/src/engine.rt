//! The producer.
ghost use Rattle.std.specs.Prelude.{◌≡◌, ◌⊎◌, ◌≤◌, ℕ, List, [], length, MatchOption, OnOk, IfOk, Result, if◌then◌else◌};
ghost use Rattle.pm_base.specs.Moment.{IsMoment};
ghost use Rattle.pm_outside.specs.Causes.{faults_after};
ghost use Rattle.pm_batch.specs.declared.batch.TheConstants.{MOST_BODY};
ghost use Rattle.pm_disk.specs.Moments.{Throughout};
ghost use Rattle.pm_history.specs.declared.entry.Entry.TheVariants.{Boot};
ghost use Rattle.pm_history.specs.History.{History, Start, ◌▷◌, grown};
ghost use Rattle.pm_items.specs.Items.{kept};
ghost use Rattle.pm_journal.specs.Items.{HasItems};
ghost use Rattle.pm_ledger.specs.Between.{EachBetween};
ghost use Rattle.pm_ledger.specs.Refusals.{add_fails};
ghost use Rattle.pm_state.specs.Given.{Given, no_memory};
ghost use Rattle.pm_state.specs.Changes.{change_given};
ghost use Rattle.pm_state.specs.Opening.{entered};

use crate::asking::wish_of;
use crate::opening::open_begun;
use crate::replies::{finished, not_allowed, unless_no_memory};
use crate::storing::store;
use crate::wish::Wish;
use crate::{EngineError, OpenError};
use pm_base::Code;
use pm_disk::Disk;
use pm_history::Side;
use pm_http::{Reply, Request, RouteError, Router};
use pm_inventory::Inventory;
use pm_jobs::Ask;
use pm_ledger::Ledger;
use pm_outside::Courier;
use pm_state::{State, SubChange, first_item, refused};
use std::alloc::Global;

/// The producer: what it keeps of its history, and its store. After a fault of the disk it is spent, and the store is to be opened again.
#[derive(Drop)]
pub struct Engine {
    alloc: Global,
    router: Router,
    state: State,
    ledger: Ledger,
}

impl Engine {
    ghost use Rattle.pm_engine.specs.Bears.{inventory_of, Bears, Run, settled_at, Carries, IsUsable};
    ghost use Rattle.pm_engine.specs.Round.{Knows, Delivers};
    ghost use Rattle.pm_notice.specs.Planned.{subscriptions_of, IsPlanOf};
    ghost use Rattle.pm_notice.specs.Round.{faults_after_stops};
    ghost use Rattle.pm_notice.specs.declared.error.SubError.{SubError};
    ghost use Rattle.pm_notice.specs.declared.subscription.SubPlan.{SubPlan};
    ghost use Rattle.pm_state.specs.SubsGiven.{Leaves, BeginsWithin, IsSubAnswer};
    ghost use Rattle.pm_engine.specs.Turn.{Gives, IsTurn, IsMost};
    ghost use Rattle.pm_engine.specs.Giving.{GivesBy, Meanwhile, Reaches};
    ghost use Rattle.pm_engine.specs.Wish.{IsWishGiven, IsShort, IsSubGiven, SubscribesBy, UnsubscribesBy};
    ghost use Rattle.pm_engine.specs.Refusals.{open_fails};

    /// Opens a store that has no items yet, and begins with a Boot at this moment.
    pub fn open<D: Disk>(
        alloc: Global,
        disk: &mut D,
        inventory: Inventory,
        boot: u64,
    ) -> Result<Engine, OpenError>
        requires { IsMoment boot }

        ensures carries { IfOk result (λ engine. Carries D.IsTold engine (D.told disk.new) (settled_at (Start ▷ Boot boot) [])) }
        ensures inventory { IfOk result (λ engine. inventory_of engine ≡ inventory) }
        ensures usable { IfOk result (λ engine. IsUsable D.IsTold engine (D.told disk.new)) }
        ensures fresh { D.IsTold → IfOk result (λ engine. HasItems (D.told disk.old).now.first.seen []) }

        // At every moment of the call each image holds nothing yet, or the Boot.
        ensures any_moment { D.IsTold → EachBetween inventory Start Start (D.told disk.old).now
            → Throughout (EachBetween inventory Start (Start ▷ Boot boot)) (D.told disk.old) (D.told disk.new) }
        ensures faults { D.faults disk.new ≡ faults_after (open_fails result) (D.faults disk.old) }
    {
        let router = Router::new(alloc)?;
        let item = first_item(alloc, &inventory, boot)?;
        let state = State::new(alloc, inventory, boot)?;
        match open_begun(alloc, disk, item.as_bytes()) {
            Ok(ledger) => Ok(Engine {
                alloc,
                router,
                state,
                ledger,
            }),
            Err(e) => Err(e),
        }
    }

    /// The last moment.
    pub fn now(&self) -> u64
        ensures { result ≡ self.now.state.last }
    {
        self.state.last()
    }

    // Enters the moment of a request. False where there is no memory for that.
    fn advance<D: Disk>(&mut self, disk: &mut D, moment: u64) -> Result<bool, EngineError>
        requires moment { IsMoment moment }
        requires usable { IsUsable D.IsTold self.old (D.told disk.old) }

        ensures entered { (h : History) (cursors : List ℕ) → Bears D.IsTold self.old (D.told disk.old) h cursors
            → IfOk result (λ done. Bears D.IsTold self.new (D.told disk.new) (if done then entered h moment else h) cursors) }
        ensures any_moment { D.IsTold → (h : History) (cursors : List ℕ) → Bears D.IsTold self.old (D.told disk.old) h cursors
            → Throughout (EachBetween (inventory_of self.old) (kept h) (kept (entered h moment))) (D.told disk.old) (D.told disk.new) }
        ensures usable { OnOk result (IsUsable D.IsTold self.new (D.told disk.new)) }
        ensures inventory { inventory_of self.new ≡ inventory_of self.old }
        ensures faults { D.faults disk.new ≡ faults_after (add_fails result) (D.faults disk.old) }
    {
        let Ok(prepared) = self.state.prepare(moment) else {
            return Ok(false);
        };
        store(&mut self.ledger, disk, &prepared.item)?;
        self.state.enter(prepared);
        Ok(true)
    }

    // Makes a change of a job or a monitor. None where there is no memory.
    fn change<D: Disk>(
        &mut self,
        disk: &mut D,
        side: Side,
        ask: &Ask,
    ) -> Result<Option<Reply>, EngineError>
        requires usable { IsUsable D.IsTold self.old (D.told disk.old) }

        ensures changed { (g : History) (cursors : List ℕ) → Bears D.IsTold self.old (D.told disk.old) g cursors
            → IfOk result (GivesBy (λ given next. Leaves cursors next (given ≡ change_given (inventory_of self.old) self.old.state.jobs self.old.state.last side ask.now)) D.IsTold self.new (D.told disk.new) g cursors) }
        ensures any_moment { D.IsTold → (g : History) (cursors : List ℕ) → Bears D.IsTold self.old (D.told disk.old) g cursors
            → Meanwhile (λ given next. Leaves cursors next (given ≡ change_given (inventory_of self.old) self.old.state.jobs self.old.state.last side ask.now)) (inventory_of self.old) (D.told disk.old) (D.told disk.new) g }
        ensures usable { OnOk result (IsUsable D.IsTold self.new (D.told disk.new)) }
        ensures inventory { inventory_of self.new ≡ inventory_of self.old }
        ensures faults { D.faults disk.new ≡ faults_after (add_fails result) (D.faults disk.old) }
    {
        match self.state.plan(side, ask) {
            Ok(change) => {
                store(&mut self.ledger, disk, &change.item)?;
                Ok(Some(self.state.enact(change)))
            }
            Err(reply) => Ok(unless_no_memory(reply)),
        }
    }

    // Makes a change of the subscriptions that was planned for a request on this id. None where there is no memory.
    fn change_subscription<D: Disk>(
        &mut self,
        disk: &mut D,
        change: Result<SubChange, Reply>,
    ) -> Result<Option<Reply>, EngineError>
        requires usable { IsUsable D.IsTold self.old (D.told disk.old) }
        requires fits { IfOk change (λ c. IsPlanOf self.old.state.subs c.plan) }
        requires begins { IfOk change (λ c. BeginsWithin self.old.state.closing.notices.total c.plan) }

        ensures changed { (g : History) (cursors id : List ℕ) (plan : Result SubPlan SubError) → Bears D.IsTold self.old (D.told disk.old) g cursors
            → IsSubAnswer (subscriptions_of self.old.state.subs) self.old.state.subs self.old.state.last id plan change
            → IfOk result (GivesBy (IsSubGiven (subscriptions_of self.old.state.subs) self.old.state.last id plan) D.IsTold self.new (D.told disk.new) g cursors) }
        ensures any_moment { D.IsTold → (g : History) (cursors id : List ℕ) (plan : Result SubPlan SubError) → Bears D.IsTold self.old (D.told disk.old) g cursors
            → IsSubAnswer (subscriptions_of self.old.state.subs) self.old.state.subs self.old.state.last id plan change
            → Meanwhile (IsSubGiven (subscriptions_of self.old.state.subs) self.old.state.last id plan) (inventory_of self.old) (D.told disk.old) (D.told disk.new) g }
        ensures usable { OnOk result (IsUsable D.IsTold self.new (D.told disk.new)) }
        ensures inventory { inventory_of self.new ≡ inventory_of self.old }
        ensures faults { D.faults disk.new ≡ faults_after (add_fails result) (D.faults disk.old) }
    {
        match change {
            Ok(change) => {
                store(&mut self.ledger, disk, &change.item)?;
                Ok(Some(self.state.enact_subscription(change)))
            }
            Err(reply) => Ok(unless_no_memory(reply)),
        }
    }

    // Makes a subscription. None where there is no memory.
    fn subscribe<D: Disk>(
        &mut self,
        disk: &mut D,
        id: &[u8],
        body: &[u8],
    ) -> Result<Option<Reply>, EngineError>
        requires usable { IsUsable D.IsTold self.old (D.told disk.old) }

        ensures gives { (g : History) (cursors : List ℕ) → Bears D.IsTold self.old (D.told disk.old) g cursors
            → IfOk result (GivesBy (SubscribesBy (inventory_of self.old) g cursors id.now body.now) D.IsTold self.new (D.told disk.new) g cursors) }
        ensures any_moment { D.IsTold → (g : History) (cursors : List ℕ) → Bears D.IsTold self.old (D.told disk.old) g cursors
            → Meanwhile (SubscribesBy (inventory_of self.old) g cursors id.now body.now) (inventory_of self.old) (D.told disk.old) (D.told disk.new) g }
        ensures usable { OnOk result (IsUsable D.IsTold self.new (D.told disk.new)) }
        ensures inventory { inventory_of self.new ≡ inventory_of self.old }
        ensures faults { D.faults disk.new ≡ faults_after (add_fails result) (D.faults disk.old) }
    {
        let change = self.state.subscribe(id, body);
        self.change_subscription(disk, change)
    }

    // Ends a subscription. None where there is no memory.
    fn unsubscribe<D: Disk>(
        &mut self,
        disk: &mut D,
        id: &[u8],
    ) -> Result<Option<Reply>, EngineError>
        requires usable { IsUsable D.IsTold self.old (D.told disk.old) }

        ensures gives { (g : History) (cursors : List ℕ) → Bears D.IsTold self.old (D.told disk.old) g cursors
            → IfOk result (GivesBy (UnsubscribesBy g cursors id.now) D.IsTold self.new (D.told disk.new) g cursors) }
        ensures any_moment { D.IsTold → (g : History) (cursors : List ℕ) → Bears D.IsTold self.old (D.told disk.old) g cursors
            → Meanwhile (UnsubscribesBy g cursors id.now) (inventory_of self.old) (D.told disk.old) (D.told disk.new) g }
        ensures usable { OnOk result (IsUsable D.IsTold self.new (D.told disk.new)) }
        ensures inventory { inventory_of self.new ≡ inventory_of self.old }
        ensures faults { D.faults disk.new ≡ faults_after (add_fails result) (D.faults disk.old) }
    {
        let change = self.state.unsubscribe(id);
        self.change_subscription(disk, change)
    }

    // What a wish is given. None where there is no memory.
    fn give<D: Disk>(&mut self, disk: &mut D, wish: Wish) -> Result<Option<Reply>, EngineError>
        requires usable { IsUsable D.IsTold self.old (D.told disk.old) }
        requires few { IsShort wish }

        ensures gives { (g : History) (cursors : List ℕ) → Bears D.IsTold self.old (D.told disk.old) g cursors
            → IfOk result (GivesBy (IsWishGiven (inventory_of self.old) g cursors wish.entry) D.IsTold self.new (D.told disk.new) g cursors) }
        ensures any_moment { D.IsTold → (g : History) (cursors : List ℕ) → Bears D.IsTold self.old (D.told disk.old) g cursors
            → Meanwhile (IsWishGiven (inventory_of self.old) g cursors wish.entry) (inventory_of self.old) (D.told disk.old) (D.told disk.new) g }
        ensures usable { OnOk result (IsUsable D.IsTold self.new (D.told disk.new)) }
        ensures inventory { inventory_of self.new ≡ inventory_of self.old }
        ensures faults { D.faults disk.new ≡ faults_after (add_fails result) (D.faults disk.old) }
    {
        match wish {
            Wish::Change { side, ask } => self.change(disk, side, &ask),
            Wish::Look { side, id } => Ok(unless_no_memory(self.state.show(side, id))),
            Wish::Events { body } => Ok(unless_no_memory(self.state.take_events(body))),
            Wish::Files { query } => Ok(unless_no_memory(self.state.list_files(query))),
            Wish::File { name } => Ok(unless_no_memory(self.state.show_file(name))),
            Wish::Subscribe { id, body } => self.subscribe(disk, id, body),
            Wish::Unsubscribe { id } => self.unsubscribe(disk, id),
        }
    }

    // What a request is given, once its moment is entered. None where there is no memory.
    fn give_request<D: Disk>(
        &mut self,
        disk: &mut D,
        request: &Request,
    ) -> Result<Option<Reply>, EngineError>
        requires usable { IsUsable D.IsTold self.old (D.told disk.old) }
        requires few { length request.now.body ≤ MOST_BODY }

        ensures gives { (g : History) (cursors : List ℕ) → Bears D.IsTold self.old (D.told disk.old) g cursors
            → IfOk result (GivesBy (Gives (inventory_of self.old) g cursors request.now) D.IsTold self.new (D.told disk.new) g cursors) }
        ensures any_moment { D.IsTold → (g : History) (cursors : List ℕ) → Bears D.IsTold self.old (D.told disk.old) g cursors
            → Meanwhile (Gives (inventory_of self.old) g cursors request.now) (inventory_of self.old) (D.told disk.old) (D.told disk.new) g }
        ensures usable { OnOk result (IsUsable D.IsTold self.new (D.told disk.new)) }
        ensures inventory { inventory_of self.new ≡ inventory_of self.old }
        ensures faults { D.faults disk.new ≡ faults_after (add_fails result) (D.faults disk.old) }
    {
        match self.router.route(self.alloc, request) {
            Ok(route) => self.give(disk, wish_of(&route, request.body.as_bytes())),
            Err(RouteError::H5) => Ok(Some(refused(self.alloc, Code::H5))),
            Err(RouteError::H6 { allow }) => Ok(Some(not_allowed(self.alloc, allow))),
            Err(RouteError::Memory) => Ok(None),
        }
    }

    // Enters the moment of a request, where it is later than the last one. False where there is no memory for that.
    fn reach<D: Disk>(&mut self, disk: &mut D, moment: u64) -> Result<bool, EngineError>
        requires moment { IsMoment moment }
        requires usable { IsUsable D.IsTold self.old (D.told disk.old) }

        ensures reaches { (h : History) (cursors : List ℕ) → Bears D.IsTold self.old (D.told disk.old) h cursors
            → IfOk result (Reaches D.IsTold self.new (D.told disk.new) h cursors moment) }
        ensures any_moment { D.IsTold → (h : History) (cursors : List ℕ) → Bears D.IsTold self.old (D.told disk.old) h cursors
            → Throughout (EachBetween (inventory_of self.old) (kept h) (kept (entered h moment))) (D.told disk.old) (D.told disk.new) }
        ensures usable { OnOk result (IsUsable D.IsTold self.new (D.told disk.new)) }
        ensures inventory { inventory_of self.new ≡ inventory_of self.old }
        ensures faults { D.faults disk.new ≡ faults_after (add_fails result) (D.faults disk.old) }
    {
        if moment <= self.state.last() {
            return Ok(true);
        }
        self.advance(disk, moment)
    }

    /// Answers a request at a moment. The history is in the contract alone: for every run that the engine and its disk stand for, the reply
    /// is that of a turn, and they stand for the run after it. `now` is then the moment of the reply.
    pub fn answer<D: Disk>(
        &mut self,
        disk: &mut D,
        moment: u64,
        request: &Request,
    ) -> Result<Reply, EngineError>
        requires moment { IsMoment moment }
        requires usable { IsUsable D.IsTold self.old (D.told disk.old) }
        requires few { length request.now.body ≤ MOST_BODY }

        ensures turn { (run : Run) → Carries D.IsTold self.old (D.told disk.old) run
            → IfOk result (λ reply. (next : Run) × IsTurn (inventory_of self.old) moment request.now run reply next × Carries D.IsTold self.new (D.told disk.new) next) }

        // At every moment of the call each image holds a history between what is kept of the settled one and what is kept of that with the turn.
        ensures any_moment { D.IsTold → (run : Run) → Carries D.IsTold self.old (D.told disk.old) run
            → (most : History) × IsMost (inventory_of self.old) moment request.now run.history run.cursors most
            × Throughout (EachBetween (inventory_of self.old) (kept run.settled) (kept most)) (D.told disk.old) (D.told disk.new) }
        ensures usable { OnOk result (IsUsable D.IsTold self.new (D.told disk.new)) }
        ensures inventory { inventory_of self.new ≡ inventory_of self.old }
        ensures faults { D.faults disk.new ≡ faults_after (add_fails result) (D.faults disk.old) }
    {
        if !self.reach(disk, moment)? {
            return Ok(finished(self.alloc, request, None));
        }
        let reply = self.give_request(disk, request)?;
        Ok(finished(self.alloc, request, reply))
    }

    /// Posts the notices that are due, after a turn: one round for each subscription, from its cursor on. It changes the cursors alone, and
    /// takes no memory. A post that fails ends the round of its subscription, and is no answer.
    pub fn deliver<P: Courier>(&mut self, courier: &mut P)
        ensures delivers { (run : Run) → Knows self.old run
            → (short : ℕ) × Delivers P.IsTold (P.posts courier.old) (P.posts courier.new) self.old self.new run short
            × (P.faults courier.new ≡ faults_after_stops short (P.faults courier.old)) }
        ensures inventory { inventory_of self.new ≡ inventory_of self.old }
        ensures store { self.new.ledger ≡ self.old.ledger }
    {
        self.state.deliver(courier);
    }
}
