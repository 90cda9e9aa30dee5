//! What a route asks of the state.
ghost use Rattle.std.specs.Prelude.{ℕ, ◌≤◌, List, length};
ghost use Rattle.pm_batch.specs.declared.batch.TheConstants.{MOST_BODY};
ghost use Rattle.pm_inventory.specs.Inventory.{InventoryState};
ghost use Rattle.pm_history.specs.History.{History, last_moment};
ghost use Rattle.pm_state.specs.Given.{Given};
ghost use Rattle.pm_state.specs.Changes.{create_given, state_given, delete_given};
ghost use Rattle.pm_state.specs.Step.{IsRouteGiven, OverJobs};
ghost use Rattle.pm_state.specs.SubsGiven.{Leaves};
ghost use Rattle.pm_engine.specs.Wish.{IsWishGiven, IsShort};

use crate::wish::Wish;
use pm_history::Side;
use pm_http::Route;
use pm_jobs::Ask;

/// What a route with this body asks.
pub fn wish_of<'a>(route: &'a Route, body: &'a [u8]) -> Wish<'a>
    ensures few { length body.now ≤ MOST_BODY → IsShort result }
    ensures given { (inventory : InventoryState) (g : History) (cursors : List ℕ) (given : Given) (next : List ℕ)
        → IsWishGiven inventory g cursors result given next → IsRouteGiven inventory g cursors route.now body.now given next }
{
    match route {
        Route::JobPut { id } => create(Side::Job, id.as_bytes(), body),
        Route::JobPatch { id } => set_state(Side::Job, id.as_bytes(), body),
        Route::JobDelete { id } => delete(Side::Job, id.as_bytes()),
        Route::JobGet { id } => Wish::Look {
            side: Side::Job,
            id: id.as_bytes(),
        },
        Route::MonitorPut { id } => create(Side::Monitor, id.as_bytes(), body),
        Route::MonitorPatch { id } => set_state(Side::Monitor, id.as_bytes(), body),
        Route::MonitorDelete { id } => delete(Side::Monitor, id.as_bytes()),
        Route::MonitorGet { id } => Wish::Look {
            side: Side::Monitor,
            id: id.as_bytes(),
        },
        Route::Events => Wish::Events { body },
        Route::Files { query } => Wish::Files {
            query: query.as_bytes(),
        },
        Route::File { name } => Wish::File {
            name: name.as_bytes(),
        },
        Route::SubscriptionPut { id } => Wish::Subscribe {
            id: id.as_bytes(),
            body,
        },
        Route::SubscriptionDelete { id } => Wish::Unsubscribe { id: id.as_bytes() },
    }
}

fn create<'a>(side: Side, id: &'a [u8], body: &'a [u8]) -> Wish<'a>
    ensures few { IsShort result }
    ensures given { (inventory : InventoryState) (g : History) (cursors : List ℕ) (given : Given) (next : List ℕ)
        → IsWishGiven inventory g cursors result given next
        → Leaves cursors next (OverJobs inventory g (λ jobs. create_given inventory jobs (last_moment g) side id.now body.now) given) }
{
    Wish::Change {
        side,
        ask: Ask::Create { id, body },
    }
}

fn set_state<'a>(side: Side, id: &'a [u8], body: &'a [u8]) -> Wish<'a>
    ensures few { IsShort result }
    ensures given { (inventory : InventoryState) (g : History) (cursors : List ℕ) (given : Given) (next : List ℕ)
        → IsWishGiven inventory g cursors result given next
        → Leaves cursors next (OverJobs inventory g (λ jobs. state_given jobs (last_moment g) side id.now body.now) given) }
{
    Wish::Change {
        side,
        ask: Ask::State { id, body },
    }
}

fn delete<'a>(side: Side, id: &'a [u8]) -> Wish<'a>
    ensures few { IsShort result }
    ensures given { (inventory : InventoryState) (g : History) (cursors : List ℕ) (given : Given) (next : List ℕ)
        → IsWishGiven inventory g cursors result given next
        → Leaves cursors next (OverJobs inventory g (λ jobs. delete_given jobs (last_moment g) side id.now) given) }
{
    Wish::Change {
        side,
        ask: Ask::Delete { id },
    }
}
