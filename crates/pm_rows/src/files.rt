//! Report files: from jobs and events to listings and files, by `run` over a disk in memory.

use crate::runs::{asked, written_by};
use crate::tally::spelled;
use std::alloc::Global;
use std::process::Abort;
use std::test::Fail;

const JOB: &str =
    "{\"granularityPeriod\":900,\"objectInstances\":[\"c7\"],\"performanceMetrics\":[\"Att\"],\"reportingPeriod\":15}";

const FETCH: &str =
    "GET /files/A20231114.2200+0000-2215+0000_-job1_ME1 HTTP/1.1\r\nPm-Moment: 1700000100\r\n\r\n";

// The file of a quarter of an hour whose one value is this.
fn report(alloc: Global, value: u32, suspect: bool) -> Result<String, Fail> {
    let text = format!(in alloc;
        "{{\"fileFooter\":{{\"endTime\":1700000100}},\"fileHeader\":{{\"beginTime\":1699999200,\"fileFormatVersion\":\"PM1\",\"jobId\":\"job1\",\"senderName\":\"ManagedElement=ME1\"}},\"measData\":[{{\"beginTime\":1699999200,\"endTime\":1700000100,\"granularityPeriod\":900,\"measInfo\":[{{\"measTypes\":[\"Att\"],\"measValues\":[{{\"measObjInstId\":\"c7\",\"measResults\":[{value}],\"suspectFlag\":{suspect}}}],\"objectClass\":\"NRCellCU\"}}]}}]}}"
    )?;
    Ok(spelled(alloc, text.as_str())?)
}

// The request that makes the job at this moment.
fn made(alloc: Global, moment: &str) -> Result<String, Fail> {
    asked(alloc, "PUT /jobs/job1", moment, JOB)
}

fn counted(alloc: Global, moment: &str, line: &str) -> Result<String, Fail> {
    asked(alloc, "POST /events", moment, line)
}

// `run` over these requests writes replies that end so.
fn shows(rt: &impl Abort, alloc: Global, requests: &str, end: &str) -> Result<(), Fail> {
    let output = written_by(rt, alloc, requests)?;
    assert!(rt;
        output.as_slice().ends_with(end.as_bytes()),
        "at {requests:?}"
    );
    Ok(())
}

#[test]
fn a_file_has_the_value_of_its_period(rt: HostRuntime) -> Result<(), Fail> {
    let alloc = rt.alloc();
    let locked = asked(
        alloc,
        "PATCH /jobs/job1",
        "1699999510",
        "{\"administrativeState\":\"LOCKED\"}",
    )?;
    let unlocked = asked(
        alloc,
        "PATCH /jobs/job1",
        "1699999510",
        "{\"administrativeState\":\"UNLOCKED\"}",
    )?;
    let between = counted(alloc, "1699999520", "c7 Att 7")?;
    let changed = format!(in alloc; "{locked}{unlocked}{between}")?;
    let same = format!(in alloc; "{unlocked}{between}")?;
    let first = counted(alloc, "1699999200", "c7 Att 2")?;
    let last = counted(alloc, "1699999800", "c7 Att 3")?;
    let rows = [
        ("1699999190", "", 5u32, false),
        ("1699999200", "", 3, true),
        ("1699999190", changed.as_str(), 5, true),
        ("1699999190", same.as_str(), 12, false),
    ];
    for (moment, middle, value, suspect) in rows {
        let job = made(alloc, moment)?;
        let requests = format!(in alloc; "{job}{first}{middle}{last}{FETCH}")?;
        let end = report(alloc, value, suspect)?;
        shows(&rt, alloc, &requests, end.as_str())?;
    }
    Ok(())
}

#[test]
fn files_are_listed_until_they_expire(rt: HostRuntime) -> Result<(), Fail> {
    let alloc = rt.alloc();
    let job = made(alloc, "1699999190")?;
    let first = counted(alloc, "1699999200", "c7 Att 2")?;
    let last = counted(alloc, "1699999800", "c7 Att 3")?;
    let begun = format!(in alloc; "{job}{first}{last}")?;
    let file = report(alloc, 5, false)?;
    let rows = [
        (
            "GET /files HTTP/1.1\r\nPm-Moment: 1700000100\r\n\r\n",
            "HTTP/1.1 200 OK\r\nContent-Type: application/json\r\nContent-Length: 207\r\nPm-Moment: 1700000100\r\n\r\n{\"fileInfoList\":[{\"fileDataType\":\"Performance\",\"fileExpirationTime\":1700086500,\"fileFormat\":\"JSON\",\"fileLocation\":\"/files/A20231114.2200+0000-2215+0000_-job1_ME1\",\"fileReadyTime\":1700000100,\"fileSize\":435}]}",
        ),
        (
            "GET /files?beginTime=1700000101 HTTP/1.1\r\nPm-Moment: 1700000100\r\n\r\n",
            "\r\n\r\n{\"fileInfoList\":[]}",
        ),
        (
            "GET /files?beginTime=now HTTP/1.1\r\nPm-Moment: 1700000100\r\n\r\n",
            "\r\n\r\n{\"code\":\"L2\"}",
        ),
        (
            "DELETE /jobs/job1 HTTP/1.1\r\nPm-Moment: 1700000099\r\n\r\nGET /files HTTP/1.1\r\nPm-Moment: 1700000100\r\n\r\n",
            "\r\n\r\n{\"fileInfoList\":[]}",
        ),
        (
            "DELETE /jobs/job1 HTTP/1.1\r\nPm-Moment: 1700000100\r\n\r\nGET /files/A20231114.2200+0000-2215+0000_-job1_ME1 HTTP/1.1\r\nPm-Moment: 1700086499\r\n\r\n",
            file.as_str(),
        ),
        (
            "GET /files/A20231114.2200+0000-2215+0000_-job1_ME1 HTTP/1.1\r\nPm-Moment: 1700086500\r\n\r\n",
            "\r\n\r\n{\"code\":\"L1\"}",
        ),
    ];
    for (asked, end) in rows {
        let requests = format!(in alloc; "{begun}{asked}")?;
        shows(&rt, alloc, &requests, end)?;
    }
    Ok(())
}

#[test]
fn a_start_after_days_ends_what_was_open(rt: HostRuntime) -> Result<(), Fail> {
    let alloc = rt.alloc();
    let job = made(alloc, "1699999190")?;
    let first = counted(alloc, "1699999200", "c7 Att 2")?;
    let requests = format!(in alloc;
        "{job}{first}GET /files HTTP/1.1\r\nPm-Moment: 1700172000\r\n\r\n"
    )?;
    shows(
        &rt,
        alloc,
        &requests,
        "Pm-Moment: 1700172000\r\n\r\n{\"fileInfoList\":[]}",
    )
}
