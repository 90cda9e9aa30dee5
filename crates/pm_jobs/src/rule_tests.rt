//! Which rule is answered where two are broken, and both ends of what is taken.
use crate::{Ask, JobError, Jobs, Outcome, Side};
use pm_inventory::Inventory;
use std::alloc::AllocError;
use std::test::Fail;

fn created(
    jobs: &mut Jobs,
    inventory: &Inventory,
    side: Side,
    id: &[u8],
    body: &[u8],
) -> Result<Outcome, JobError> {
    let plan = jobs.plan(inventory, 60, side, &Ask::Create { id, body })?;
    Ok(jobs.enact(plan))
}

#[test]
fn a_monitor_breaks_the_first_rule(rt: HostRuntime) -> Result<(), AllocError> {
    let inventory = Inventory::default(rt.alloc())?;
    let cases: [(&[u8], Result<Outcome, JobError>); 10] = [
        (
            br#"{"monitorGranularityPeriod":60,"rootObjectInstances":["ManagedElement=ME1"],"thresholdInfoList":[{"performanceMetrics":["RRC"],"thresholdDirection":"UP","thresholdValue":0}]}"#,
            Ok(Outcome::New),
        ),
        (
            br#"{"monitorGranularityPeriod":3600,"objectInstances":["ManagedElement=ME1,GNBDUFunction=1,NRCellDU=7"],"thresholdInfoList":[{"performanceMetrics":["VS.QueueLow"],"thresholdDirection":"DOWN","thresholdValue":9007199254740991,"hysteresis":9007199254740991}]}"#,
            Ok(Outcome::New),
        ),
        (
            br#"{"monitorGranularityPeriod":60,"rootObjectInstances":["ManagedElement=ME1"],"thresholdInfoList":[{"performanceMetrics":["RRX"],"thresholdDirection":"UP","thresholdValue":5,"hysteresis":6}]}"#,
            Err(JobError::J11),
        ),
        (
            br#"{"monitorGranularityPeriod":60,"rootObjectInstances":["ManagedElement=ME2"],"thresholdInfoList":[{"performanceMetrics":["RRC"],"thresholdDirection":"UP","thresholdValue":5},{"performanceMetrics":["RRX"],"thresholdDirection":"UP","thresholdValue":5}]}"#,
            Err(JobError::J3),
        ),
        (
            br#"{"monitorGranularityPeriod":60,"objectInstances":["ManagedElement=ME2"],"thresholdInfoList":[{"performanceMetrics":["VS.QueueLow"],"thresholdDirection":"UP","thresholdValue":5}]}"#,
            Err(JobError::J4),
        ),
        (
            br#"{"monitorGranularityPeriod":60,"objectInstances":["ManagedElement=ME1,GNBCUCPFunction=1,NRCellCU=7"],"thresholdInfoList":[{"performanceMetrics":["RRC"],"thresholdDirection":"UP","thresholdValue":5},{"performanceMetrics":["VS.QueueLow"],"thresholdDirection":"UP","thresholdValue":5}]}"#,
            Err(JobError::J5),
        ),
        (
            br#"{"monitorGranularityPeriod":120,"objectInstances":["ManagedElement=ME1,GNBCUCPFunction=1,NRCellCU=7"],"thresholdInfoList":[{"performanceMetrics":["VS.QueueLow"],"thresholdDirection":"UP","thresholdValue":5}]}"#,
            Err(JobError::J5),
        ),
        (
            br#"{"monitorGranularityPeriod":120,"rootObjectInstances":["ManagedElement=ME1"],"thresholdInfoList":[{"performanceMetrics":["RRC"],"thresholdDirection":"UP","thresholdValue":5}]}"#,
            Err(JobError::J6),
        ),
        (
            br#"{"monitorGranularityPeriod":4294967295,"rootObjectInstances":["ManagedElement=ME1"],"thresholdInfoList":[{"performanceMetrics":["RRC"],"thresholdDirection":"UP","thresholdValue":5}]}"#,
            Err(JobError::J6),
        ),
        (
            br#"{"monitorGranularityPeriod":4294967296,"rootObjectInstances":["ManagedElement=ME1"],"thresholdInfoList":[{"performanceMetrics":["RRC"],"thresholdDirection":"UP","thresholdValue":5}]}"#,
            Err(JobError::J1),
        ),
    ];
    for (body, want) in cases {
        let mut jobs = Jobs::new(rt.alloc());
        let answer = created(&mut jobs, &inventory, Side::Monitor, b"m", body);
        assert_eq!(rt; answer, want, "at {body:?}");
    }
    Ok(())
}

#[test]
fn an_id_that_exists_is_told_before_what_its_body_asks_for(
    rt: HostRuntime,
) -> Result<(), AllocError> {
    let inventory = Inventory::default(rt.alloc())?;
    let mut jobs = Jobs::new(rt.alloc());
    let job: &[u8] =
        br#"{"granularityPeriod":60,"performanceMetrics":["RRC"],"reportingPeriod":1,"rootObjectInstances":["ManagedElement=ME1"]}"#;
    let monitor: &[u8] =
        br#"{"monitorGranularityPeriod":60,"rootObjectInstances":["ManagedElement=ME1"],"thresholdInfoList":[{"performanceMetrics":["RRC"],"thresholdDirection":"UP","thresholdValue":5}]}"#;
    let steps: [(Side, &[u8], Result<Outcome, JobError>); 10] = [
        (Side::Job, job, Ok(Outcome::New)),
        (Side::Job, b"{}", Err(JobError::J1)),
        (Side::Job, monitor, Err(JobError::J1)),
        (
            Side::Job,
            br#"{"granularityPeriod":60,"performanceMetrics":["RRX"],"reportingPeriod":1,"rootObjectInstances":["ManagedElement=ME1"]}"#,
            Err(JobError::J2),
        ),
        (
            Side::Job,
            br#" { "rootObjectInstances":["ManagedElement=ME1"], "reportingPeriod":1, "performanceMetrics":["RRC"], "granularityPeri\u006fd":60 } "#,
            Ok(Outcome::Same),
        ),
        (Side::Monitor, monitor, Ok(Outcome::New)),
        (Side::Monitor, b"{}", Err(JobError::J1)),
        (
            Side::Monitor,
            br#"{"monitorGranularityPeriod":60,"rootObjectInstances":["ManagedElement=ME1"],"thresholdInfoList":[]}"#,
            Err(JobError::J2),
        ),
        (
            Side::Monitor,
            br#"{"monitorGranularityPeriod":60,"rootObjectInstances":["ManagedElement=ME1"],"thresholdInfoList":[{"performanceMetrics":["RRX"],"thresholdDirection":"UP","thresholdValue":5}]}"#,
            Err(JobError::J2),
        ),
        (
            Side::Monitor,
            br#"{"monitorGranularityPeriod":60,"rootObjectInstances":["ManagedElement=ME1"],"thresholdInfoList":[{"performanceMetrics":["RRC"],"thresholdDirection":"UP","thresholdValue":5,"hysteresis":0}]}"#,
            Ok(Outcome::Same),
        ),
    ];
    for (side, body, want) in steps {
        let answer = created(&mut jobs, &inventory, side, b"i", body);
        assert_eq!(rt; answer, want, "at {body:?}");
    }
    Ok(())
}

#[test]
fn an_id_has_1_to_32_characters(rt: HostRuntime) -> Result<(), AllocError> {
    let inventory = Inventory::default(rt.alloc())?;
    let job: &[u8] =
        br#"{"granularityPeriod":60,"performanceMetrics":["RRC"],"reportingPeriod":1,"rootObjectInstances":["ManagedElement=ME1"]}"#;
    let cases: [(&[u8], Result<Outcome, JobError>); 6] = [
        (b"", Err(JobError::J1)),
        (b"a", Ok(Outcome::New)),
        (b"abcdefghijklmnopqrstuvwxyz-34567", Ok(Outcome::New)),
        (b"abcdefghijklmnopqrstuvwxyz-345678", Err(JobError::J1)),
        (b"-", Err(JobError::J1)),
        (b"a.", Err(JobError::J1)),
    ];
    for (id, want) in cases {
        let mut jobs = Jobs::new(rt.alloc());
        let answer = created(&mut jobs, &inventory, Side::Job, id, job);
        assert_eq!(rt; answer, want, "at {id:?}");
    }
    Ok(())
}

#[test]
fn the_periods_are_these(rt: HostRuntime) -> Result<(), Fail> {
    let inventory = Inventory::default(rt.alloc())?;
    // (granularity period, reporting period, answer)
    let cases: [(u32, u32, Result<Outcome, JobError>); 15] = [
        (59, 1, Err(JobError::J6)),
        (60, 1, Ok(Outcome::New)),
        (61, 1, Err(JobError::J6)),
        (300, 5, Ok(Outcome::New)),
        (900, 15, Ok(Outcome::New)),
        (1800, 30, Ok(Outcome::New)),
        (1800, 15, Err(JobError::J7)),
        (3600, 60, Ok(Outcome::New)),
        (3600, 480, Ok(Outcome::New)),
        (3600, 90, Err(JobError::J7)),
        (3601, 60, Err(JobError::J6)),
        (60, 1440, Ok(Outcome::New)),
        (60, 1441, Err(JobError::J7)),
        (60, 2880, Err(JobError::J7)),
        (60, 4_294_967_295, Err(JobError::J7)),
    ];
    for (granularity, reporting, want) in cases {
        let mut jobs = Jobs::new(rt.alloc());
        let body = format!(in rt.alloc();
            r#"{{"granularityPeriod":{granularity},"performanceMetrics":["VS"],"reportingPeriod":{reporting},"rootObjectInstances":["ManagedElement=ME1"]}}"#
        )?;
        let answer = created(&mut jobs, &inventory, Side::Job, b"j", body.as_bytes());
        assert_eq!(rt; answer, want, "at {granularity} and {reporting}");
    }
    Ok(())
}
