//! Two jobs over ticks, starts of the program and a deletion.

use crate::{Closer, FilledCell, are_small};
use pm_inventory::Inventory;
use pm_jobs::{Ask, JobError, Jobs, Outcome, Side};
use pm_meas::Cell;
use std::alloc::Global;
use std::process::Abort;
use std::test::Fail;

// A request on a job.
fn change(
    rt: &impl Abort,
    alloc: Global,
    inventory: &Inventory,
    closer: &mut Closer,
    jobs: &mut Jobs,
    moment: u64,
    ask: &Ask,
) -> Result<Outcome, JobError> {
    let plan = jobs.plan(inventory, moment, Side::Job, ask)?;
    assert!(rt; closer.count(Side::Job) == jobs.count(Side::Job) as usize);
    assert!(rt; closer.count(Side::Monitor) == jobs.count(Side::Monitor) as usize);
    assert!(rt; closer.slots() == inventory.slots() as usize);
    let made = closer.prepare(alloc, inventory, &plan)?;
    closer.follow(inventory, jobs, &plan, made);
    Ok(jobs.enact(plan))
}

// Two values of slot 0, one of slot 14.
fn row() -> [Cell; 15] {
    let mut row = [Cell::empty(); 15];
    row[0] = Cell {
        n: 2,
        sum: 9,
        max: 5,
        min: 4,
    };
    row[14] = Cell {
        n: 1,
        sum: 3,
        max: 3,
        min: 3,
    };
    row
}

// What an entry ends: of each report the job, the end, how many parts were kept before, and the last value.
fn end(
    rt: &impl Abort,
    alloc: Global,
    closer: &mut Closer,
    jobs: &Jobs,
    moment: u64,
    boot: bool,
) -> Result<Vec<(u8, u64, usize, Option<u64>)>, Fail> {
    let row = row();
    assert!(rt; closer.count(Side::Job) == jobs.count(Side::Job) as usize);
    assert!(rt; closer.count(Side::Monitor) == jobs.count(Side::Monitor) as usize);
    assert!(rt; row.len() == closer.slots());
    assert!(rt; are_small(&row));
    assert!(rt; moment < 1_000_000);
    assert!(rt; closer.tick() < moment / 60);
    let booking = closer.book(alloc, jobs, &row, moment, boot)?;
    let mut told = Vec::new(alloc);
    for report in booking.reports() {
        let value = match report.due.parts.last() {
            Some(part) => part.values.first().copied().flatten(),
            None => None,
        };
        told.push((report.job, report.end, report.earlier, value))?;
    }
    closer.enact(booking);
    Ok(told)
}

// Entries, whether each is a start, and what each ends.
fn end_each(
    rt: &impl Abort,
    alloc: Global,
    closer: &mut Closer,
    jobs: &Jobs,
    entries: &[(u64, bool, &[(u8, u64, usize, Option<u64>)])],
) -> Result<(), Fail> {
    for (moment, boot, wants) in entries {
        let told = end(rt, alloc, closer, jobs, *moment, *boot)?;
        assert_eq!(rt; told.as_slice(), *wants, "at {moment}");
    }
    Ok(())
}

#[test]
fn two_jobs_have_their_files_through_starts_and_a_deletion(rt: HostRuntime) -> Result<(), Fail> {
    let alloc = rt.alloc();
    let inventory = Inventory::default(alloc)?;
    let mut jobs = Jobs::new(alloc);
    let mut closer = Closer::new(alloc, &inventory)?;
    end_each(
        &rt,
        alloc,
        &mut closer,
        &jobs,
        &[(6_000, true, &[]), (6_060, false, &[])],
    )?;
    // A sum of slot 0 in each minute; a report has one of them, or two.
    let bodies: [(&[u8], &[u8]); 2] = [
        (
            b"one",
            br#"{"granularityPeriod":60,"performanceMetrics":["RRC.ConnEstabAtt.mo-Data"],"reportingPeriod":1,"objectInstances":["ManagedElement=ME1,GNBCUCPFunction=1,NRCellCU=7"]}"#,
        ),
        (
            b"two",
            br#"{"granularityPeriod":60,"performanceMetrics":["RRC.ConnEstabAtt.mo-Data"],"reportingPeriod":2,"objectInstances":["ManagedElement=ME1,GNBCUCPFunction=1,NRCellCU=7"]}"#,
        ),
    ];
    for (id, body) in bodies {
        let ask = Ask::Create { id, body };
        let outcome = change(&rt, alloc, &inventory, &mut closer, &mut jobs, 6_060, &ask);
        assert!(rt; matches!(outcome, Ok(Outcome::New)));
    }
    end_each(
        &rt,
        alloc,
        &mut closer,
        &jobs,
        &[
            // The jobs were made in this tick: it isn't counted.
            (6_120, false, &[]),
            (
                6_240,
                false,
                &[
                    (0, 103, 0, Some(9)),
                    (0, 104, 0, Some(0)),
                    (1, 104, 0, Some(0)),
                ],
            ),
            // A start cuts the tick that was open, and its own.
            (6_300, true, &[]),
            (6_360, false, &[]),
            (6_420, false, &[(0, 107, 0, Some(9))]),
            // A gap ends the report that was open, and no other.
            (66_420, true, &[(1, 108, 1, None)]),
        ],
    )?;
    let ask = Ask::Delete { id: b"one" };
    let outcome = change(&rt, alloc, &inventory, &mut closer, &mut jobs, 66_420, &ask);
    assert!(rt; matches!(outcome, Ok(Outcome::Deleted)));
    end_each(
        &rt,
        alloc,
        &mut closer,
        &jobs,
        &[
            (66_480, false, &[]),
            (66_600, false, &[(0, 1_110, 0, Some(0))]),
        ],
    )
}

#[test]
fn a_booking_has_the_cells_with_values(rt: HostRuntime) -> Result<(), Fail> {
    let alloc = rt.alloc();
    let inventory = Inventory::default(alloc)?;
    let jobs = Jobs::new(alloc);
    let closer = Closer::new(alloc, &inventory)?;
    let row = row();
    assert!(rt; closer.count(Side::Job) == jobs.count(Side::Job) as usize);
    assert!(rt; closer.count(Side::Monitor) == jobs.count(Side::Monitor) as usize);
    assert!(rt; row.len() == closer.slots());
    assert!(rt; are_small(&row));
    assert!(rt; closer.tick() == 0);
    let booking = closer.book(alloc, &jobs, &row, 60, false)?;
    let wants = [
        FilledCell {
            slot: 0,
            cell: row[0],
        },
        FilledCell {
            slot: 14,
            cell: row[14],
        },
    ];
    assert_eq!(rt; booking.cells(), wants.as_slice());
    let booking = closer.book(alloc, &jobs, &row, 60, true)?;
    assert!(rt; booking.cells().is_empty());
    Ok(())
}
