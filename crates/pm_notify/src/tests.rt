//! What no contract says: that there is memory for notices, and what those of one end look like.
ghost use Rattle.std.specs.Prelude.{◌≡◌, IfOk};

use crate::{AddedNotices, Notices};
use pm_close::{Crossing, Due, EndCrossings, MonitorCrossing, PartValues};
use pm_inventory::Inventory;
use pm_jobs::{Ask, Jobs, Side};
use pm_ready::{ReadyFile, due_file};
use pm_thresh::Direction;
use std::alloc::Global;
use std::process::Abort;
use std::test::Fail;

const CELL: &[u8] = b"ManagedElement=ME1,GNBCUCPFunction=1,NRCellCU=7";

const JOB: &[u8] =
    br#"{"granularityPeriod":900,"objectInstances":["ManagedElement=ME1,GNBCUCPFunction=1,NRCellCU=7"],"performanceMetrics":["RRC.ConnEstabAtt.mo-Data"],"reportingPeriod":15}"#;

const MONITOR: &[u8] =
    br#"{"monitorGranularityPeriod":60,"rootObjectInstances":["ManagedElement=ME1"],"thresholdInfoList":[{"performanceMetrics":["RRC.ConnMax"],"thresholdDirection":"UP_AND_DOWN","thresholdValue":80,"hysteresis":5}]}"#;

const BODIES: [&[u8]; 3] = [
    br#"{"eventTime":1700000100,"fileInfoList":[{"fileDataType":"Performance","fileExpirationTime":1700086500,"fileFormat":"JSON","fileLocation":"/files/A20231114.2200+0000-2215+0000_-job1_ME1","fileReadyTime":1700000100,"fileSize":435}],"notificationId":0,"notificationType":"notifyFileReady","objectInstance":"ManagedElement=ME1"}"#,
    br#"{"eventTime":1700000100,"hysteresis":5,"monitorId":"m1","notificationId":1,"notificationType":"notifyThresholdCrossing","objectInstance":"ManagedElement=ME1,GNBCUCPFunction=1,NRCellCU=7","observedValue":86,"performanceMetric":"RRC.ConnMax","thresholdDirection":"UP","thresholdValue":80}"#,
    br#"{"eventTime":1700000100,"hysteresis":5,"monitorId":"m1","notificationId":2,"notificationType":"notifyThresholdCrossing","objectInstance":"ManagedElement=ME1,GNBCUCPFunction=1,NRCellCU=7","observedValue":70,"performanceMetric":"RRC.ConnMax","thresholdDirection":"DOWN","thresholdValue":80}"#,
];

fn make(inventory: &Inventory, jobs: &mut Jobs, side: Side, ask: &Ask) -> Result<(), Fail> {
    let plan = jobs.plan(inventory, 1_699_999_190, side, ask)?;
    jobs.enact(plan);
    Ok(())
}

// A job and a monitor.
fn standing(alloc: Global, inventory: &Inventory) -> Result<Jobs, Fail> {
    let mut jobs = Jobs::new(alloc);
    let job = Ask::Create {
        id: b"job1",
        body: JOB,
    };
    make(inventory, &mut jobs, Side::Job, &job)?;
    let monitor = Ask::Create {
        id: b"m1",
        body: MONITOR,
    };
    make(inventory, &mut jobs, Side::Monitor, &monitor)?;
    Ok(jobs)
}

// The file of the job over the quarter of an hour that ends at 1700000100.
fn file(
    rt: &impl Abort,
    alloc: Global,
    inventory: &Inventory,
    jobs: &Jobs,
) -> Result<ReadyFile, Fail> {
    assert_eq!(rt; jobs.count(Side::Job), 1);
    let mut parts = Vec::new(alloc);
    parts.push(PartValues {
        values: Vec::from_slice(alloc, &[Some(5)])?,
        suspect: false,
    })?;
    let due = Due {
        begin: 28_333_320,
        parts,
        counted: true,
    };
    let file = due_file(alloc, inventory, jobs.at(Side::Job, 0), &[], &due)?;
    Ok(file.ok_or("no file")?)
}

// A crossing of the monitor on the cell.
fn crossing(
    inventory: &Inventory,
    direction: Direction,
    value: u64,
) -> Result<MonitorCrossing, Fail> {
    let object = inventory.tree().find(CELL).ok_or("no cell")?;
    let metric = inventory
        .catalogue()
        .find(b"RRC.ConnMax")
        .ok_or("no metric")?;
    Ok(MonitorCrossing {
        monitor: 0,
        crossing: Crossing {
            threshold: 0,
            metric,
            object,
            direction,
            value,
            limit: 80,
            hysteresis: 5,
        },
    })
}

// A file and two crossings at one end.
fn prepared(rt: &impl Abort, alloc: Global, notices: &Notices) -> Result<AddedNotices, Fail>
    ensures { IfOk result (λ added. added.first ≡ notices.now.total) }
{
    let inventory = Inventory::default(alloc)?;
    let jobs = standing(alloc, &inventory)?;
    let mut files = Vec::new(alloc);
    files.push(file(rt, alloc, &inventory, &jobs)?)?;
    let mut crossings = Vec::new(alloc);
    crossings.push(crossing(&inventory, Direction::Up, 86)?)?;
    crossings.push(crossing(&inventory, Direction::Down, 70)?)?;
    let mut ends = Vec::new(alloc);
    ends.push(EndCrossings { crossings })?;
    Ok(notices.prepare(alloc, &inventory, &jobs, 28_333_334, &files, &ends)?)
}

fn renew(notices: &mut Notices, moment: u64, added: AddedNotices) -> Result<(), Fail>
    requires { added.first ≡ notices.old.total }
{
    notices.reserve(added.as_slice().len())?;
    notices.step(moment, added);
    Ok(())
}

#[test]
fn at_one_end_a_file_is_told_before_crossings(rt: HostRuntime) -> Result<(), Fail> {
    let alloc = rt.alloc();
    let notices = Notices::new(alloc);
    let added = prepared(&rt, alloc, &notices)?;
    assert_eq!(rt; added.as_slice().len(), BODIES.len());
    for (notice, body) in added.as_slice().iter().zip(BODIES) {
        assert_eq!(rt; notice.body.as_bytes(), body);
    }
    Ok(())
}

#[test]
fn notices_are_kept_for_a_day(rt: HostRuntime) -> Result<(), Fail> {
    let alloc = rt.alloc();
    let mut notices = Notices::new(alloc);
    let added = prepared(&rt, alloc, &notices)?;
    renew(&mut notices, 1_700_086_499, added)?;
    assert_eq!(rt; notices.as_slice().len(), 3);
    let added = prepared(&rt, alloc, &notices)?;
    renew(&mut notices, 1_700_086_500, added)?;
    assert_eq!(rt; notices.as_slice().len(), 0);
    assert_eq!(rt; notices.total(), 6);
    Ok(())
}
