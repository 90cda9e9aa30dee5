//! Ticks that end by hand: what periods give, and how much a gap costs.

use crate::{
    Due, Marks, Measure, OpenReport, TickCells, are_small, are_within, counts, watch_period,
};
use pm_meas::{Cell, Reduce};
use pm_thresh::{Direction, Watch};
use std::alloc::Global;
use std::process::Abort;
use std::test::Fail;

// A request ends ticks.
pub fn end_with_now(
    rt: &impl Abort,
    kept: &mut TickCells,
    row: &[Cell],
    from: u64,
    tick: u64,
) -> Result<(), Fail> {
    assert!(rt; row.len() == kept.slots());
    assert!(rt; are_small(row));
    assert!(rt; tick < 1000);
    assert!(rt; from <= tick);
    assert!(rt; kept.end() < tick);
    let first = kept.first().max(from);
    assert!(rt; tick - first < 60);
    kept.reserve(tick - first)?;
    kept.end_with_now(row, from, tick);
    Ok(())
}

// A start of the program cuts ticks.
pub fn end_with_boot(
    rt: &impl Abort,
    kept: &mut TickCells,
    from: u64,
    tick: u64,
) -> Result<(), Fail> {
    assert!(rt; tick < 1_000_000_000);
    assert!(rt; from <= tick);
    assert!(rt; kept.end() <= tick);
    let first = kept.first().max(from);
    assert!(rt; tick - first < 60);
    kept.reserve(tick - first)?;
    kept.end_with_boot(from, tick);
    Ok(())
}

// One tick of an open report ends.
fn end_tick(
    rt: &impl Abort,
    alloc: Global,
    report: &mut OpenReport,
    kept: &TickCells,
    row: &[Cell],
    measures: &[Measure],
    parts: u64,
    mark: bool,
) -> Result<Option<Due>, Fail> {
    assert!(rt; row.len() == kept.slots());
    assert!(rt; are_small(row));
    assert!(rt; are_within(kept.slots(), measures));
    let marks = *report.marks();
    assert!(rt; marks.begin() < 1000);
    assert!(rt; marks.count() < 5);
    assert!(rt; kept.first() <= marks.begin());
    Ok(report.end_tick(alloc, kept, row, measures, 5, parts, mark)?)
}

#[test]
fn the_parts_of_a_report_have_the_values_of_their_counted_ticks(
    rt: HostRuntime,
) -> Result<(), Fail> {
    let alloc = rt.alloc();
    let cell = |n, sum, max, min| Cell { n, sum, max, min };
    let first = [cell(2, 13, 9, 4), cell(1, 7, 7, 7)];
    let second = [cell(3, 6, 3, 1), Cell::empty()];
    let mut kept = TickCells::new(alloc, 2);
    end_with_boot(&rt, &mut kept, 100, 100)?;
    end_with_now(&rt, &mut kept, &first, 100, 101)?;
    end_with_now(&rt, &mut kept, &first, 100, 102)?;
    let read = |slot, reduce| Measure { slot, reduce };
    let measures = [
        read(0, Reduce::Sum),
        read(0, Reduce::Mean),
        read(0, Reduce::Max),
        read(0, Reduce::Min),
        read(1, Reduce::Sum),
        read(1, Reduce::Mean),
    ];
    let wants = [Some(19), Some(3), Some(9), Some(1), Some(7), Some(7)];
    let mut report = OpenReport::unmarked(alloc, 6, 5, 1, 100)?;
    for mark in [false, true, true, true] {
        let due = end_tick(&rt, alloc, &mut report, &kept, &second, &measures, 1, mark)?;
        assert!(rt; due.is_none());
    }
    let due = end_tick(&rt, alloc, &mut report, &kept, &second, &measures, 1, true)?;
    assert!(rt; due.is_some());
    if let Some(due) = due {
        assert_eq!(rt; due.begin, 100);
        assert!(rt; due.counted);
        assert_eq!(rt; due.parts.len(), 1);
        for part in &due.parts {
            assert!(rt; part.suspect);
            assert_eq!(rt; part.values.as_slice(), wants.as_slice());
        }
    }
    Ok(())
}

#[test]
fn a_report_without_a_counted_tick_has_no_file(rt: HostRuntime) -> Result<(), Fail> {
    let alloc = rt.alloc();
    let mut kept = TickCells::new(alloc, 1);
    end_with_boot(&rt, &mut kept, 45, 49)?;
    let row = [Cell {
        n: 1,
        sum: 5,
        max: 5,
        min: 5,
    }];
    let measures = [Measure {
        slot: 0,
        reduce: Reduce::Sum,
    }];
    let mut report = OpenReport::unmarked(alloc, 1, 5, 2, 49)?;
    let due = end_tick(&rt, alloc, &mut report, &kept, &row, &measures, 2, false)?;
    assert!(rt; due.is_some());
    if let Some(due) = due {
        assert_eq!(rt; due.begin, 40);
        assert!(rt; !due.counted);
        assert_eq!(rt; due.parts.len(), 2);
        for part in &due.parts {
            assert!(rt; part.suspect);
            assert_eq!(rt; part.values.as_slice(), [None].as_slice());
        }
    }
    Ok(())
}

#[test]
fn a_gap_of_two_hundred_years_costs_as_many_rows_as_one_of_an_hour(
    rt: HostRuntime,
) -> Result<(), Fail> {
    for end in [160, 105_120_100] {
        let mut kept = TickCells::new(rt.alloc(), 2);
        end_with_boot(&rt, &mut kept, 100, 100)?;
        end_with_boot(&rt, &mut kept, end - 59, end)?;
        assert_eq!(rt; kept.first(), end - 59);
        assert_eq!(rt; kept.end(), end);
    }
    Ok(())
}

#[test]
fn a_tick_is_counted_for_what_ran_through_it_unchanged(rt: HostRuntime) {
    assert!(rt; counts(false, 119, true, 2));
    assert!(rt; !counts(false, 120, true, 2), "changed in its first second");
    assert!(rt; !counts(false, 0, false, 2), "LOCKED");
    assert!(rt; !counts(true, 0, true, 2), "cut");
}

#[test]
fn a_period_ends_with_its_last_tick(rt: HostRuntime) {
    let mut marks = Marks::unmarked(3, 31);
    assert_eq!(rt; (marks.begin(), marks.count()), (30, 1));
    let before = marks.end_tick(3, true);
    assert!(rt; before.is_none());
    let period = marks.end_tick(3, true);
    assert!(rt; period.is_some());
    if let Some(period) = period {
        assert_eq!(rt; (period.begin(), period.count()), (30, 3));
        assert!(rt; period.is_some_counted() && period.is_suspect());
    }
    assert_eq!(rt; (marks.begin(), marks.count()), (33, 0));
}

#[test]
fn a_suspect_value_is_none_of_a_sequence(rt: HostRuntime) {
    let mut watch = Watch::new(10, 10, true, false);
    assert_eq!(rt; watch_period(&mut watch, Some(12), true), None);
    assert_eq!(rt; watch_period(&mut watch, None, false), None);
    assert_eq!(rt;
        watch_period(&mut watch, Some(12), false),
        Some(Direction::Up)
    );
}
