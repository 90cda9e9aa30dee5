//! The crossings of a monitor, tick by tick.

use crate::tests::{end_with_boot, end_with_now};
use crate::{
    Crossing, Marks, MetricWatches, OpenMonitor, TickCells, WatchedMetric, WatchedObject, Watches,
    are_small, slots_within,
};
use pm_history::Metric;
use pm_meas::{Cell, Reduce};
use std::alloc::Global;
use std::process::Abort;
use std::test::Fail;

// A sum is watched on the objects 7 and 9, whose slots are 0 and 1.
fn watched(alloc: Global, threshold: u32, value: u64) -> Result<MetricWatches, Fail> {
    let of = WatchedMetric {
        threshold,
        metric: Metric {
            number: 3,
            reduce: Reduce::Sum,
        },
        value,
        hysteresis: 0,
        high: value,
        low: value,
        up: true,
        down: true,
    };
    let seven = WatchedObject::new(&of, 7, 0);
    let nine = WatchedObject::new(&of, 9, 1);
    let objects = vec![in alloc; seven, nine]?;
    Ok(MetricWatches { of, objects })
}

// The cell of one value.
fn cell(value: u32) -> Cell {
    Cell {
        n: 1,
        sum: u64::from(value),
        max: value,
        min: value,
    }
}

// A tick ends, of which these are the cells.
fn end_tick(
    rt: &impl Abort,
    alloc: Global,
    monitor: &mut OpenMonitor,
    kept: &mut TickCells,
    row: &[Cell],
    mark: bool,
) -> Result<Vec<Crossing>, Fail> {
    assert!(rt; row.len() == kept.slots());
    assert!(rt; are_small(row));
    assert!(rt; slots_within(kept.slots(), &monitor.watches.metrics));
    let marks = monitor.marks;
    let tick = marks.begin();
    assert!(rt; tick < 900);
    assert!(rt; marks.count() < 1);
    assert!(rt; kept.first() <= tick);
    let crossings = monitor.end_tick(alloc, kept, row, 1, mark)?;
    end_with_now(rt, kept, row, tick, tick + 1)?;
    Ok(crossings)
}

#[test]
fn crossings_come_by_threshold_then_by_object_and_again_after_unlock(
    rt: HostRuntime,
) -> Result<(), Fail> {
    let alloc = rt.alloc();
    let row = [cell(12), cell(3)];
    let mut kept = TickCells::new(alloc, 2);
    end_with_boot(&rt, &mut kept, 100, 100)?;
    let high = watched(alloc, 0, 10)?;
    let low = watched(alloc, 1, 2)?;
    let metrics = vec![in alloc; high, low]?;
    let mut monitor = OpenMonitor {
        marks: Marks::unmarked(1, 100),
        watches: Watches { metrics },
    };
    let crossings = end_tick(&rt, alloc, &mut monitor, &mut kept, &row, true)?;
    assert_eq!(rt; crossings.len(), 3);
    for (crossing, place) in crossings.iter().zip([(0, 7), (1, 7), (1, 9)]) {
        assert_eq!(rt; (crossing.threshold, crossing.object), place);
    }
    let none = end_tick(&rt, alloc, &mut monitor, &mut kept, &row, true)?;
    assert!(rt; none.is_empty(), "raised already");
    monitor.rearm();
    let none = end_tick(&rt, alloc, &mut monitor, &mut kept, &row, false)?;
    assert!(rt; none.is_empty(), "suspect");
    let crossings = end_tick(&rt, alloc, &mut monitor, &mut kept, &row, true)?;
    assert_eq!(rt; crossings.len(), 3);
    Ok(())
}

#[test]
fn a_monitor_goes_on_behind_a_gap_of_years(rt: HostRuntime) {
    let mut monitor = OpenMonitor {
        marks: Marks::unmarked(5, 102),
        watches: Watches {
            metrics: Vec::new(rt.alloc()),
        },
    };
    for (tick, begin) in [(104, 100), (105, 105), (105_120_103, 105_120_100)] {
        let marks = monitor.marks;
        assert!(rt; marks.count() < 5);
        assert!(rt; marks.begin() <= 1_000_000_000);
        assert!(rt; marks.begin() + marks.count() as u64 <= tick);
        monitor.end_with_boot(5, tick);
        assert_eq!(rt; monitor.marks.begin(), begin);
        assert_eq!(rt; begin + monitor.marks.count() as u64, tick);
    }
}
