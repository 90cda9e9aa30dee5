//! Empty value sequences, after a monitor is set to UNLOCKED.

ghost use Rattle.std.specs.Prelude.{◌≡◌, ◌≤◌, ℕ, List};
ghost use Rattle.pm_base.specs.Moment.{tick_of};
ghost use Rattle.pm_inventory.specs.Inventory.{SlotKey};
ghost use Rattle.pm_history.specs.declared.entry.Side.{Side};
ghost use Rattle.pm_history.specs.History.{History};
ghost use Rattle.pm_history.specs.Terms.{Terms, Watched};
ghost use Rattle.pm_history.specs.Standing.{Making};
ghost use Rattle.pm_close.specs.Watched.{ObjectsStand, SameObjects};

use crate::watched::WatchedObject;

// On each of these objects a value sequence begins.
pub fn rearm_objects(objects: &mut [WatchedObject])
    ensures stands { (terms : Side → List ℕ → Terms) (slots : List SlotKey) (h g : History) (w : Making) (granularity : ℕ) (watched : Watched) (before armed tick : ℕ)
        → ObjectsStand terms slots h w granularity watched before tick objects.old
        → ObjectsStand terms slots g w granularity watched armed (tick_of armed) objects.new }
    ensures same { SameObjects objects.old objects.new }
{
    for k in 0..objects.len() {
        objects[k].rearm();
    }
}
