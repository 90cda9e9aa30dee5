//! What requests come to: the first rule broken, or the outcome.
use crate::{Ask, JobError, Jobs, Outcome, Side};
use pm_inventory::Inventory;
use std::alloc::AllocError;

fn turn(
    jobs: &mut Jobs,
    inventory: &Inventory,
    side: Side,
    ask: &Ask,
) -> Result<Outcome, JobError> {
    let plan = jobs.plan(inventory, 60, side, ask)?;
    Ok(jobs.enact(plan))
}

#[test]
fn a_job_breaks_the_first_rule(rt: HostRuntime) -> Result<(), AllocError> {
    let inventory = Inventory::default(rt.alloc())?;
    let cases: [(&[u8], Result<Outcome, JobError>); 14] = [
        (
            br#"{"granularityPeriod":60,"performanceMetrics":["RRC"],"reportingPeriod":1,"rootObjectInstances":["ManagedElement=ME1"]}"#,
            Ok(Outcome::New),
        ),
        (
            br#"{"granularityPeriod":3600,"performanceMetrics":["VS.SetupTime"],"reportingPeriod":1440,"objectInstances":["ManagedElement=ME1,GNBDUFunction=1,NRCellDU=7"]}"#,
            Ok(Outcome::New),
        ),
        (b"{}", Err(JobError::J1)),
        (
            br#"{"granularityPeriod":60,"performanceMetrics":["RRX"],"reportingPeriod":1,"objectInstances":["ManagedElement=ME2"]}"#,
            Err(JobError::J3),
        ),
        (
            br#"{"granularityPeriod":60,"performanceMetrics":["RRC.Conn"],"reportingPeriod":1,"rootObjectInstances":["ManagedElement=ME1"]}"#,
            Err(JobError::J3),
        ),
        (
            br#"{"granularityPeriod":60,"performanceMetrics":["VS.QueueLow"],"reportingPeriod":1,"objectInstances":["ManagedElement=ME2"]}"#,
            Err(JobError::J4),
        ),
        (
            br#"{"granularityPeriod":60,"performanceMetrics":["RRC"],"reportingPeriod":1,"rootObjectInstances":["ManagedElement=ME1,GNBDUFunction=2"]}"#,
            Err(JobError::J4),
        ),
        (
            br#"{"granularityPeriod":120,"performanceMetrics":["VS.QueueLow"],"reportingPeriod":1,"objectInstances":["ManagedElement=ME1,GNBCUCPFunction=1,NRCellCU=7"]}"#,
            Err(JobError::J5),
        ),
        (
            br#"{"granularityPeriod":60,"performanceMetrics":["RRC"],"reportingPeriod":1}"#,
            Err(JobError::J5),
        ),
        (
            br#"{"granularityPeriod":120,"performanceMetrics":["RRC"],"reportingPeriod":7,"rootObjectInstances":["ManagedElement=ME1"]}"#,
            Err(JobError::J6),
        ),
        (
            br#"{"granularityPeriod":0,"performanceMetrics":["RRC"],"reportingPeriod":0,"rootObjectInstances":["ManagedElement=ME1"]}"#,
            Err(JobError::J6),
        ),
        (
            br#"{"granularityPeriod":900,"performanceMetrics":["RRC"],"reportingPeriod":20,"rootObjectInstances":["ManagedElement=ME1"]}"#,
            Err(JobError::J7),
        ),
        (
            br#"{"granularityPeriod":60,"performanceMetrics":["RRC"],"reportingPeriod":7,"rootObjectInstances":["ManagedElement=ME1"]}"#,
            Err(JobError::J7),
        ),
        (
            br#"{"granularityPeriod":60,"performanceMetrics":["RRC"],"reportingPeriod":0,"rootObjectInstances":["ManagedElement=ME1"]}"#,
            Err(JobError::J7),
        ),
    ];
    for (body, want) in cases {
        let mut jobs = Jobs::new(rt.alloc());
        let ask = Ask::Create { id: b"j", body };
        assert_eq!(rt;
            turn(&mut jobs, &inventory, Side::Job, &ask),
            want,
            "at {body:?}"
        );
    }
    Ok(())
}

#[test]
fn a_monitor_is_made_moved_and_deleted(rt: HostRuntime) -> Result<(), AllocError> {
    let inventory = Inventory::default(rt.alloc())?;
    let mut jobs = Jobs::new(rt.alloc());
    let body: &[u8] =
        br#"{"monitorGranularityPeriod":60,"objectInstances":["ManagedElement=ME1,GNBDUFunction=1,NRCellDU=7"],"thresholdInfoList":[{"performanceMetrics":["VS"],"thresholdDirection":"UP","thresholdValue":5,"hysteresis":5}]}"#;
    let other: &[u8] =
        br#"{"monitorGranularityPeriod":300,"objectInstances":["ManagedElement=ME1,GNBDUFunction=1,NRCellDU=7"],"thresholdInfoList":[{"performanceMetrics":["VS"],"thresholdDirection":"UP","thresholdValue":5,"hysteresis":5}]}"#;
    let wrong: &[u8] =
        br#"{"monitorGranularityPeriod":60,"objectInstances":["ManagedElement=ME1,GNBDUFunction=1,NRCellDU=7"],"thresholdInfoList":[{"performanceMetrics":["VS"],"thresholdDirection":"UP","thresholdValue":5,"hysteresis":6}]}"#;
    let locked: &[u8] = br#"{"administrativeState":"LOCKED"}"#;
    let spaced: &[u8] =
        br#"{ "thresholdInfoList":[ {"hysteresis":5,"performanceMetrics":["VS"],"thresholdDirection":"UP","thresholdValue":5} ], "objectInstances":["ManagedElement=ME1,GNBDUFunction=1,NRCellDU=7"], "monitorGranularityPeriod":60 }"#;
    let steps: [(Ask, Result<Outcome, JobError>); 13] = [
        (Ask::Create { id: b"", body }, Err(JobError::J1)),
        (
            Ask::Create {
                id: b"m",
                body: wrong,
            },
            Err(JobError::J11),
        ),
        (
            Ask::State {
                id: b"m",
                body: locked,
            },
            Err(JobError::J10),
        ),
        (Ask::State { id: b"m", body }, Err(JobError::J1)),
        (Ask::Delete { id: b"m" }, Err(JobError::J10)),
        (Ask::Create { id: b"m", body }, Ok(Outcome::New)),
        (
            Ask::Create {
                id: b"m",
                body: wrong,
            },
            Err(JobError::J2),
        ),
        (
            Ask::Create {
                id: b"m",
                body: other,
            },
            Err(JobError::J2),
        ),
        (
            Ask::State {
                id: b"m",
                body: locked,
            },
            Ok(Outcome::Changed),
        ),
        (
            Ask::State {
                id: b"m",
                body: locked,
            },
            Ok(Outcome::Already),
        ),
        (Ask::Create { id: b"m", body }, Ok(Outcome::Same)),
        (
            Ask::Create {
                id: b"m",
                body: spaced,
            },
            Ok(Outcome::Same),
        ),
        (Ask::Delete { id: b"m" }, Ok(Outcome::Deleted)),
    ];
    for (ask, want) in steps {
        assert_eq!(rt; turn(&mut jobs, &inventory, Side::Monitor, &ask), want);
    }
    assert_eq!(rt; jobs.count(Side::Monitor), 0);
    assert_eq!(rt; jobs.load(), 0);
    Ok(())
}
