//! How many jobs and monitors fit, and how much load.
use crate::{Ask, JobError, Jobs, Outcome, Side};
use pm_dn::Tree;
use pm_inventory::Inventory;
use pm_meas::Catalogue;
use std::alloc::Global;
use std::test::Fail;

fn turn(
    jobs: &mut Jobs,
    inventory: &Inventory,
    side: Side,
    id: &[u8],
    body: &[u8],
) -> Result<Outcome, JobError> {
    let plan = jobs.plan(inventory, 60, side, &Ask::Create { id, body })?;
    Ok(jobs.enact(plan))
}

// So many cells, and metrics of them.
fn cells(alloc: Global, count: u8, metrics: &[&str]) -> Result<Inventory, Fail> {
    let mut tree = Tree::new(alloc);
    tree.add(b"ManagedElement=ME1")?;
    tree.add(b"ManagedElement=ME1,GNBDUFunction=1")?;
    for cell in 0..count {
        let name = format!(in alloc; "ManagedElement=ME1,GNBDUFunction=1,NRCellDU={cell}")?;
        tree.add(name.as_bytes())?;
    }
    let mut catalogue = Catalogue::new(alloc);
    for metric in metrics {
        let words = format!(in alloc; "{metric} NRCellDU CC SUM")?;
        catalogue.add(words.as_bytes())?;
    }
    Ok(Inventory::finish(alloc, tree, catalogue)?)
}

#[test]
fn the_load_is_16_for_an_object_and_1_for_a_pair(rt: HostRuntime) -> Result<(), Fail> {
    let twelve = [
        "A.1", "A.2", "A.3", "A.4", "A.5", "A.6", "A.7", "A.8", "A.9", "B.1", "B.2", "C.1",
    ];
    let inventory = cells(rt.alloc(), 24, &twelve)?;
    let mut jobs = Jobs::new(rt.alloc());
    let body =
        br#"{"granularityPeriod":900,"performanceMetrics":["A","B","C"],"reportingPeriod":15,"rootObjectInstances":["ManagedElement=ME1"]}"#;
    assert_eq!(rt;
        turn(&mut jobs, &inventory, Side::Job, b"a", body),
        Ok(Outcome::New)
    );
    assert_eq!(rt; jobs.load(), 64_512);
    assert_eq!(rt;
        turn(&mut jobs, &inventory, Side::Job, b"b", body),
        Ok(Outcome::New)
    );
    assert_eq!(rt; jobs.load(), 129_024);

    // A metric and an object that are asked for twice count once.
    let twice =
        br#"{"monitorGranularityPeriod":3600,"objectInstances":["ManagedElement=ME1,GNBDUFunction=1,NRCellDU=0"],"rootObjectInstances":["ManagedElement=ME1,GNBDUFunction=1,NRCellDU=0"],"thresholdInfoList":[{"performanceMetrics":["B","B.1"],"thresholdDirection":"UP","thresholdValue":5},{"performanceMetrics":["B.2","C.1"],"thresholdDirection":"DOWN","thresholdValue":0}]}"#;
    assert_eq!(rt;
        turn(&mut jobs, &inventory, Side::Monitor, b"a", twice),
        Ok(Outcome::New)
    );
    assert_eq!(rt; jobs.load(), 129_024 + 24 * 19);
    Ok(())
}

#[test]
fn a_minute_of_254_cells_and_16_metrics_is_too_much(rt: HostRuntime) -> Result<(), Fail> {
    let sixteen = [
        "A.1", "A.2", "A.3", "A.4", "A.5", "A.6", "A.7", "A.8", "B.1", "B.2", "B.3", "B.4", "B.5",
        "B.6", "B.7", "B.8",
    ];
    let inventory = cells(rt.alloc(), 254, &sixteen)?;
    let mut jobs = Jobs::new(rt.alloc());
    let minute =
        br#"{"granularityPeriod":60,"performanceMetrics":["A","B"],"reportingPeriod":60,"rootObjectInstances":["ManagedElement=ME1"]}"#;
    assert_eq!(rt;
        turn(&mut jobs, &inventory, Side::Job, b"a", minute),
        Err(JobError::J9)
    );
    Ok(())
}

// The largest load that is taken is 4,194,288, since each is a multiple of 24.
#[test]
fn the_load_is_taken_up_to_its_limit(rt: HostRuntime) -> Result<(), Fail> {
    let twelve = [
        "A.1", "B.1", "C.1", "C.2", "D.1", "D.2", "D.3", "D.4", "D.5", "E.1", "E.2", "E.3",
    ];
    let inventory = cells(rt.alloc(), 24, &twelve)?;
    let mut jobs = Jobs::new(rt.alloc());
    let minute: &[u8] =
        br#"{"granularityPeriod":60,"performanceMetrics":["A","B","C","D","E"],"reportingPeriod":1,"rootObjectInstances":["ManagedElement=ME1"]}"#;
    let watched: &[u8] =
        br#"{"monitorGranularityPeriod":60,"rootObjectInstances":["ManagedElement=ME1"],"thresholdInfoList":[{"performanceMetrics":["A","B","C"],"thresholdDirection":"UP","thresholdValue":5},{"performanceMetrics":["C","D","E"],"thresholdDirection":"UP","thresholdValue":5}]}"#;
    let steps: [(Side, &[u8], &[u8], Result<Outcome, JobError>); 10] = [
        (Side::Job, b"1", minute, Ok(Outcome::New)),
        (Side::Monitor, b"1", watched, Ok(Outcome::New)),
        (Side::Job, b"2", minute, Ok(Outcome::New)),
        (Side::Monitor, b"2", watched, Ok(Outcome::New)),
        (
            Side::Job,
            b"3",
            br#"{"granularityPeriod":300,"performanceMetrics":["A","B","C","D","E"],"reportingPeriod":5,"rootObjectInstances":["ManagedElement=ME1"]}"#,
            Ok(Outcome::New),
        ),
        (
            Side::Job,
            b"4",
            br#"{"granularityPeriod":300,"performanceMetrics":["A"],"reportingPeriod":5,"rootObjectInstances":["ManagedElement=ME1"]}"#,
            Ok(Outcome::New),
        ),
        (
            Side::Monitor,
            b"5",
            br#"{"monitorGranularityPeriod":3600,"rootObjectInstances":["ManagedElement=ME1"],"thresholdInfoList":[{"performanceMetrics":["A","B"],"thresholdDirection":"UP","thresholdValue":5},{"performanceMetrics":["B","C"],"thresholdDirection":"UP","thresholdValue":5}]}"#,
            Ok(Outcome::New),
        ),
        (
            Side::Job,
            b"6",
            br#"{"granularityPeriod":3600,"performanceMetrics":["A","B","C","D"],"reportingPeriod":60,"objectInstances":["ManagedElement=ME1,GNBDUFunction=1,NRCellDU=0"]}"#,
            Ok(Outcome::New),
        ),
        (
            Side::Job,
            b"7",
            br#"{"granularityPeriod":3600,"performanceMetrics":["A","B"],"reportingPeriod":60,"objectInstances":["ManagedElement=ME1,GNBDUFunction=1,NRCellDU=0"]}"#,
            Err(JobError::J9),
        ),
        (
            Side::Job,
            b"7",
            br#"{"granularityPeriod":3600,"performanceMetrics":["A"],"reportingPeriod":60,"objectInstances":["ManagedElement=ME1,GNBDUFunction=1,NRCellDU=0"]}"#,
            Ok(Outcome::New),
        ),
    ];
    for (side, id, body, want) in steps {
        assert_eq!(rt;
            turn(&mut jobs, &inventory, side, id, body),
            want,
            "at {id:?}"
        );
    }
    assert_eq!(rt; jobs.load(), 4_194_288);
    Ok(())
}

// Makes one of each of these letters; whether each was made.
fn are_made(jobs: &mut Jobs, inventory: &Inventory, side: Side, ids: &[u8], body: &[u8]) -> bool {
    ids.iter().all(|id| turn(jobs, inventory, side, &[*id], body) == Ok(Outcome::New))
}

#[test]
fn as_many_as_32_of_a_side_are_taken(rt: HostRuntime) -> Result<(), Fail> {
    let inventory = Inventory::default(rt.alloc())?;
    let mut jobs = Jobs::new(rt.alloc());
    let job: &[u8] =
        br#"{"granularityPeriod":60,"performanceMetrics":["RRC","VS"],"reportingPeriod":1,"rootObjectInstances":["ManagedElement=ME1"]}"#;
    let odd: &[u8] =
        br#"{"granularityPeriod":60,"performanceMetrics":["RRC","VS"],"reportingPeriod":7,"rootObjectInstances":["ManagedElement=ME1"]}"#;
    let monitor: &[u8] =
        br#"{"monitorGranularityPeriod":60,"rootObjectInstances":["ManagedElement=ME1"],"thresholdInfoList":[{"performanceMetrics":["RRC","VS"],"thresholdDirection":"UP","thresholdValue":5}]}"#;
    let light: &[u8] =
        br#"{"monitorGranularityPeriod":3600,"objectInstances":["ManagedElement=ME1,GNBDUFunction=1,NRCellDU=7"],"thresholdInfoList":[{"performanceMetrics":["VS.QueueLow"],"thresholdDirection":"UP","thresholdValue":5}]}"#;
    let even: &[u8] =
        br#"{"monitorGranularityPeriod":120,"rootObjectInstances":["ManagedElement=ME1"],"thresholdInfoList":[{"performanceMetrics":["RRC","VS"],"thresholdDirection":"UP","thresholdValue":5}]}"#;
    assert!(rt;
        are_made(
            &mut jobs,
            &inventory,
            Side::Job,
            b"0123456789abcdefghijklmnopqrstuv",
            job
        )
    );
    assert!(rt;
        are_made(
            &mut jobs,
            &inventory,
            Side::Monitor,
            b"0123456789abcd",
            monitor
        )
    );
    assert_eq!(rt;
        turn(&mut jobs, &inventory, Side::Monitor, b"w", monitor),
        Err(JobError::J9)
    );
    assert!(rt;
        are_made(
            &mut jobs,
            &inventory,
            Side::Monitor,
            b"efghijklmnopqrstuv",
            light
        )
    );
    assert_eq!(rt; jobs.count(Side::Job), 32);
    assert_eq!(rt; jobs.count(Side::Monitor), 32);

    // The load would be too much too.
    let steps: [(Side, &[u8], Result<Outcome, JobError>); 6] = [
        (Side::Job, job, Err(JobError::J8)),
        (Side::Job, odd, Err(JobError::J7)),
        (Side::Monitor, monitor, Err(JobError::J12)),
        (Side::Monitor, light, Err(JobError::J12)),
        (Side::Monitor, even, Err(JobError::J6)),
        (Side::Monitor, b"{}", Err(JobError::J1)),
    ];
    for (side, body, want) in steps {
        assert_eq!(rt;
            turn(&mut jobs, &inventory, side, b"w", body),
            want,
            "at {body:?}"
        );
    }
    assert_eq!(rt;
        turn(&mut jobs, &inventory, Side::Job, b"v", job),
        Ok(Outcome::Same)
    );
    Ok(())
}
