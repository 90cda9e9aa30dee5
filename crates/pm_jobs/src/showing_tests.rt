//! What exists, as it is kept and shown.
use crate::{Ask, JobError, Jobs, Outcome, Side};
use pm_inventory::Inventory;
use std::test::Fail;

const MONITOR: &[u8] =
    br#"{"monitorGranularityPeriod":60,"objectInstances":["ManagedElement=ME1,GNBDUFunction=1,NRCellDU=7"],"rootObjectInstances":["ManagedElement=ME1,GNBCUCPFunction=1"],"thresholdInfoList":[{"performanceMetrics":["VS.SetupTime","RRC.ConnMax"],"thresholdDirection":"UP","thresholdValue":7,"hysteresis":2},{"performanceMetrics":["VS"],"thresholdDirection":"UP_AND_DOWN","thresholdValue":9}]}"#;

// Its canonical text.
const CANONICAL: &[u8] =
    br#"{"administrativeState":"UNLOCKED","monitorGranularityPeriod":60,"objectInstances":["ManagedElement=ME1,GNBDUFunction=1,NRCellDU=7"],"rootObjectInstances":["ManagedElement=ME1,GNBCUCPFunction=1"],"thresholdInfoList":[{"hysteresis":2,"performanceMetrics":["VS.SetupTime","RRC.ConnMax"],"thresholdDirection":"UP","thresholdValue":7},{"hysteresis":0,"performanceMetrics":["VS"],"thresholdDirection":"UP_AND_DOWN","thresholdValue":9}]}"#;

// What is shown of it, under the id `m`.
const UNLOCKED: &[u8] =
    br#"{"administrativeState":"UNLOCKED","monitorGranularityPeriod":60,"monitorId":"m","objectInstances":["ManagedElement=ME1,GNBDUFunction=1,NRCellDU=7"],"operationalState":"ENABLED","rootObjectInstances":["ManagedElement=ME1,GNBCUCPFunction=1"],"thresholdInfoList":[{"hysteresis":2,"performanceMetrics":["VS.SetupTime","RRC.ConnMax"],"thresholdDirection":"UP","thresholdValue":7},{"hysteresis":0,"performanceMetrics":["VS"],"thresholdDirection":"UP_AND_DOWN","thresholdValue":9}]}"#;

const LOCKED: &[u8] =
    br#"{"administrativeState":"LOCKED","monitorGranularityPeriod":60,"monitorId":"m","objectInstances":["ManagedElement=ME1,GNBDUFunction=1,NRCellDU=7"],"operationalState":"ENABLED","rootObjectInstances":["ManagedElement=ME1,GNBCUCPFunction=1"],"thresholdInfoList":[{"hysteresis":2,"performanceMetrics":["VS.SetupTime","RRC.ConnMax"],"thresholdDirection":"UP","thresholdValue":7},{"hysteresis":0,"performanceMetrics":["VS"],"thresholdDirection":"UP_AND_DOWN","thresholdValue":9}]}"#;

fn turn(
    jobs: &mut Jobs,
    inventory: &Inventory,
    moment: u64,
    ask: &Ask,
) -> Result<Outcome, JobError> {
    let plan = jobs.plan(inventory, moment, Side::Monitor, ask)?;
    Ok(jobs.enact(plan))
}

#[test]
fn a_body_is_shown_with_the_state_of_now(rt: HostRuntime) -> Result<(), Fail> {
    let inventory = Inventory::default(rt.alloc())?;
    let mut jobs = Jobs::new(rt.alloc());
    let made = Ask::Create {
        id: b"m",
        body: MONITOR,
    };
    let locked = Ask::State {
        id: b"m",
        body: br#"{"administrativeState":"LOCKED"}"#,
    };
    assert_eq!(rt; turn(&mut jobs, &inventory, 60, &made), Ok(Outcome::New));
    let shown = jobs.body(rt.alloc(), Side::Monitor, b"m")?;
    assert!(rt; shown.is_some_and(|body| body.as_bytes() == UNLOCKED));
    assert_eq!(rt;
        turn(&mut jobs, &inventory, 90, &locked),
        Ok(Outcome::Changed)
    );
    let shown = jobs.body(rt.alloc(), Side::Monitor, b"m")?;
    assert!(rt; shown.is_some_and(|body| body.as_bytes() == LOCKED));
    assert!(rt; jobs.body(rt.alloc(), Side::Job, b"m")?.is_none());
    assert!(rt; jobs.body(rt.alloc(), Side::Monitor, b"n")?.is_none());
    Ok(())
}

#[test]
fn what_exists_keeps_the_numbers_of_what_it_asks_for(rt: HostRuntime) -> Result<(), Fail> {
    let inventory = Inventory::default(rt.alloc())?;
    let mut jobs = Jobs::new(rt.alloc());
    for id in [b"b", b"a"] {
        let made = Ask::Create { id, body: MONITOR };
        assert_eq!(rt; turn(&mut jobs, &inventory, 60, &made), Ok(Outcome::New));
    }
    assert_eq!(rt; jobs.count(Side::Monitor), 2);
    if jobs.count(Side::Monitor) == 2 {
        let item = jobs.at(Side::Monitor, 0);
        assert_eq!(rt; item.id.as_bytes(), b"a".as_slice());
        assert_eq!(rt; item.body.as_bytes(), CANONICAL);
        assert_eq!(rt; (item.changed, item.armed), (60, 60));
        assert_eq!(rt; (item.granularity, item.reporting), (60, 0));
        assert_eq!(rt; item.metrics.as_slice(), [5, 6, 7, 8].as_slice());
        assert_eq!(rt; item.objects.as_slice(), [1, 2, 3, 5].as_slice());
        assert_eq!(rt; item.limits.len(), 2);
        assert_eq!(rt; item.load, (16 * 3 + 5) * 1_440);
        assert_eq!(rt; jobs.at(Side::Monitor, 1).id.as_bytes(), b"b".as_slice());
    }
    Ok(())
}
