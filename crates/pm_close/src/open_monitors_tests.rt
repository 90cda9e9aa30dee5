//! The crossings of two monitors, of three that were made.

ghost use Rattle.std.specs.Prelude.{◌≡◌, ◌+◌, length, OnOk};
ghost use Rattle.pm_inventory.specs.Inventory.{slots};
ghost use Rattle.pm_close.specs.OpenMonitors.{AllGoOn};

use crate::tests::end_with_boot;
use crate::{OpenMonitors, TickCells, are_small, plans_have_places, prepare};
use pm_inventory::Inventory;
use pm_jobs::{Ask, Jobs, Side};
use pm_meas::Cell;
use std::alloc::Global;
use std::process::Abort;
use std::test::Fail;

// A gauge and a counter, whose hysteresis doesn't count.
const GAUGE: &[u8] =
    br#"{"monitorGranularityPeriod":60,"rootObjectInstances":["ManagedElement=ME1"],"thresholdInfoList":[{"performanceMetrics":["VS.QueueLength"],"thresholdDirection":"UP","thresholdValue":10,"hysteresis":1}]}"#;

const COUNTER: &[u8] =
    br#"{"monitorGranularityPeriod":60,"rootObjectInstances":["ManagedElement=ME1"],"thresholdInfoList":[{"performanceMetrics":["RRC.ConnEstabAtt.mo-Data"],"thresholdDirection":"UP","thresholdValue":10,"hysteresis":5}]}"#;

// A plan of the minute before the open one.
fn turn(
    rt: &impl Abort,
    alloc: Global,
    inventory: &Inventory,
    jobs: &mut Jobs,
    monitors: &mut OpenMonitors,
    kept: &TickCells,
    ask: &Ask,
) -> Result<(), Fail>
    requires as_many { length monitors.old.monitors.items ≡ length jobs.old.monitors }
    requires go_on { AllGoOn kept.now (kept.now.first + kept.now.ticks) monitors.old.monitors.items }
    requires wide { kept.now.slots ≡ length (slots inventory.now) }
    ensures as_many { OnOk result (length monitors.new.monitors.items ≡ length jobs.new.monitors) }
    ensures go_on { OnOk result (AllGoOn kept.now (kept.now.first + kept.now.ticks) monitors.new.monitors.items) }
{
    let plan = jobs.plan(inventory, 5940, Side::Monitor, ask);
    assert!(rt; plan.is_ok());
    let Ok(plan) = plan else {
        return Ok(());
    };
    let made = prepare(alloc, inventory, kept, &plan)?;
    plans_have_places();
    monitors.follow(&plan, made);
    jobs.enact(plan);
    Ok(())
}

// Two monitors, of three that were made.
fn stand(
    rt: &impl Abort,
    alloc: Global,
    inventory: &Inventory,
    jobs: &mut Jobs,
    monitors: &mut OpenMonitors,
    kept: &TickCells,
) -> Result<(), Fail>
    requires as_many { length monitors.old.monitors.items ≡ length jobs.old.monitors }
    requires go_on { AllGoOn kept.now (kept.now.first + kept.now.ticks) monitors.old.monitors.items }
    requires wide { kept.now.slots ≡ length (slots inventory.now) }
    ensures as_many { OnOk result (length monitors.new.monitors.items ≡ length jobs.new.monitors) }
    ensures go_on { OnOk result (AllGoOn kept.now (kept.now.first + kept.now.ticks) monitors.new.monitors.items) }
{
    let gauge = Ask::Create {
        id: b"m2",
        body: GAUGE,
    };
    turn(rt, alloc, inventory, jobs, monitors, kept, &gauge)?;
    let counter = Ask::Create {
        id: b"m1",
        body: COUNTER,
    };
    turn(rt, alloc, inventory, jobs, monitors, kept, &counter)?;
    let other = Ask::Create {
        id: b"m0",
        body: COUNTER,
    };
    turn(rt, alloc, inventory, jobs, monitors, kept, &other)?;
    let gone = Ask::Delete { id: b"m0" };
    turn(rt, alloc, inventory, jobs, monitors, kept, &gone)
}

#[test]
fn two_monitors_cross_in_order_of_id_once_a_third_is_deleted(rt: HostRuntime) -> Result<(), Fail> {
    let alloc = rt.alloc();
    let inventory = Inventory::default(alloc)?;
    let mut kept = TickCells::new(alloc, u32::from(inventory.slots()));
    end_with_boot(&rt, &mut kept, 100, 100)?;
    let mut jobs = Jobs::new(alloc);
    let mut monitors = OpenMonitors::new(alloc);
    assert!(rt; kept.slots() == usize::from(inventory.slots()));
    stand(&rt, alloc, &inventory, &mut jobs, &mut monitors, &kept)?;
    let cell = Cell {
        n: 1,
        sum: 11,
        max: 11,
        min: 11,
    };
    let row = [cell; 15];
    assert!(rt; row.len() == kept.slots());
    assert!(rt; are_small(&row));
    assert!(rt; kept.end() <= 102);
    let booking = monitors.book(alloc, &jobs, &kept, &row, false, 102)?;
    assert_eq!(rt; booking.crossings.len(), 2);
    let first = &booking.crossings[0].crossings;
    assert_eq!(rt; first.len(), 3);
    for (crossing, want) in first.iter().zip([(0, 2), (0, 3), (1, 5)]) {
        assert_eq!(rt; (crossing.monitor, crossing.crossing.object), want);
    }
    assert!(rt; booking.crossings[1].crossings.is_empty(), "no event");
    monitors.enact(booking.plans);
    Ok(())
}
