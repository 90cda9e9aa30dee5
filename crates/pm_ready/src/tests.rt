//! What no contract says: what a file and a listing look like, and that there is memory for them.
use crate::{FileQuery, ReadyFile, ReadyFiles, due_file};
use pm_close::{Due, PartValues};
use pm_inventory::Inventory;
use pm_jobs::{Ask, Jobs, Side};
use std::alloc::Global;
use std::process::Abort;
use std::test::Fail;

const NAME: &[u8] = b"A20231114.2200+0000-2215+0000_-job1_ME1";

const TEXT: &[u8] =
    br#"{"fileFooter":{"endTime":1700000100},"fileHeader":{"beginTime":1699999200,"fileFormatVersion":"PM1","jobId":"job1","senderName":"ManagedElement=ME1"},"measData":[{"beginTime":1699999200,"endTime":1700000100,"granularityPeriod":900,"measInfo":[{"measTypes":["RRC.ConnEstabAtt.mo-Data"],"measValues":[{"measObjInstId":"ManagedElement=ME1,GNBCUCPFunction=1,NRCellCU=7","measResults":[5],"suspectFlag":false}],"objectClass":"NRCellCU"}]}]}"#;

const LISTING: &[u8] =
    br#"{"fileInfoList":[{"fileDataType":"Performance","fileExpirationTime":1700086500,"fileFormat":"JSON","fileLocation":"/files/A20231114.2200+0000-2215+0000_-job1_ME1","fileReadyTime":1700000100,"fileSize":435}]}"#;

// The file of a job of one cell and one counter over a quarter of an hour.
fn row_file(rt: &impl Abort, alloc: Global) -> Result<ReadyFile, Fail> {
    let inventory = Inventory::default(alloc)?;
    let mut jobs = Jobs::new(alloc);
    let ask = Ask::Create {
        id: b"job1",
        body: br#"{"granularityPeriod":900,"objectInstances":["ManagedElement=ME1,GNBCUCPFunction=1,NRCellCU=7"],"performanceMetrics":["RRC.ConnEstabAtt.mo-Data"],"reportingPeriod":15}"#,
    };
    let plan = jobs.plan(&inventory, 1_699_999_190, Side::Job, &ask)?;
    jobs.enact(plan);
    assert_eq!(rt; jobs.count(Side::Job), 1);
    let mut parts = Vec::new(alloc);
    parts.push(PartValues {
        values: Vec::from_slice(alloc, &[Some(5)])?,
        suspect: false,
    })?;
    let due = Due {
        begin: 28_333_320,
        parts,
        counted: true,
    };
    let file = due_file(alloc, &inventory, jobs.at(Side::Job, 0), &[], &due)?;
    Ok(file.ok_or("no file")?)
}

fn renew(files: &mut ReadyFiles, moment: u64, new: Vec<ReadyFile>) -> Result<(), Fail> {
    files.reserve(new.len())?;
    files.step(moment, new);
    Ok(())
}

#[test]
fn a_file_is_served_and_listed_for_a_day(rt: HostRuntime) -> Result<(), Fail> {
    let alloc = rt.alloc();
    let file = row_file(&rt, alloc)?;
    assert_eq!(rt; file.info.name.as_bytes(), NAME);
    assert_eq!(rt; file.text.as_bytes(), TEXT);
    let mut new = Vec::new(alloc);
    new.push(file)?;
    let mut files = ReadyFiles::new(alloc);
    renew(&mut files, 1_700_086_499, new)?;
    assert_eq!(rt; files.find(alloc, NAME)?, Some(TEXT));
    assert_eq!(rt;
        files.find(alloc, b"A20231114.2200+0000-2215+0000_-job2_ME1")?,
        None
    );
    renew(&mut files, 1_700_086_500, Vec::new(alloc))?;
    assert_eq!(rt; files.find(alloc, NAME)?, None);
    Ok(())
}

#[test]
fn a_query_shows_files_by_type_and_time(rt: HostRuntime) -> Result<(), Fail> {
    let alloc = rt.alloc();
    let mut new = Vec::new(alloc);
    new.push(row_file(&rt, alloc)?)?;
    let mut files = ReadyFiles::new(alloc);
    renew(&mut files, 1_700_000_100, new)?;
    let empty = br#"{"fileInfoList":[]}"#.as_slice();
    let ready = 1_700_000_100;
    let cases: [(Option<bool>, Option<u64>, Option<u64>, &[u8]); 5] = [
        (None, None, None, LISTING),
        (Some(true), Some(ready), Some(ready), LISTING),
        (Some(false), None, None, empty),
        (None, Some(ready + 1), None, empty),
        (None, None, Some(ready - 1), empty),
    ];
    for (performance, begin, end, want) in cases {
        let query = FileQuery {
            performance,
            begin,
            end,
        };
        let listing = files.listing(alloc, &query)?;
        assert_eq!(rt; listing.as_bytes(), want);
    }
    Ok(())
}
