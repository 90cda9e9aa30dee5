//! Requests that are refused, by `run` over a disk in memory.

use crate::runs::{asked, written_by};
use std::alloc::Global;
use std::process::Abort;
use std::test::Fail;

fn job(
    alloc: Global,
    granularity: u32,
    reporting: u32,
    object: &str,
    metric: &str,
) -> Result<String, Fail> {
    let body = format!(in alloc;
        "{{\"granularityPeriod\":{granularity},\"objectInstances\":[\"{object}\"],\"performanceMetrics\":[\"{metric}\"],\"reportingPeriod\":{reporting}}}"
    )?;
    asked(alloc, "PUT /jobs/a", "1699999190", body.as_str())
}

// `run` over these requests writes replies of which the last is a refusal with this status and code, at this line.
fn is_refused(
    rt: &impl Abort,
    alloc: Global,
    requests: &str,
    status: &str,
    refusal: &str,
) -> Result<(), Fail> {
    let output = written_by(rt, alloc, requests)?;
    assert!(rt;
        output.as_slice().ends_with(refusal.as_bytes()),
        "at {refusal:?}"
    );
    let last = format!(in alloc; "HTTP/1.1 {status}")?;
    let text = str::from_utf8(output.as_slice())?;
    let at = text.rfind("HTTP/1.1 ").ok_or("no reply")?;
    assert!(rt;
        text.get(at..)
            .unwrap_or_default()
            .starts_with(last.as_str()),
        "at {refusal:?}"
    );
    Ok(())
}

#[test]
fn a_job_is_refused_by_the_first_rule_that_it_breaks(rt: HostRuntime) -> Result<(), Fail> {
    let alloc = rt.alloc();
    let first = job(alloc, 900, 15, "c7", "Att")?;
    let other = job(alloc, 300, 15, "c7", "Att")?;
    let twice = format!(in alloc; "{first}{first}{other}")?;
    is_refused(&rt, alloc, twice.as_str(), "409 ", "{\"code\":\"J2\"}")?;
    let rows = [
        (120, 15, "c7", "Att", "J6"),
        (900, 20, "c7", "Att", "J7"),
        (60, 7, "c7", "Att", "J7"),
        (900, 15, "c7", "RRX", "J3"),
        (900, 15, "ManagedElement=ME2", "Att", "J4"),
        (900, 15, "c7", "VS.QueueLow", "J5"),
    ];
    for (granularity, reporting, object, metric, code) in rows {
        let asked = job(alloc, granularity, reporting, object, metric)?;
        let refusal = format!(in alloc; "{{\"code\":\"{code}\"}}")?;
        is_refused(&rt, alloc, asked.as_str(), "422 ", refusal.as_str())?;
    }
    let bare = asked(alloc, "PUT /jobs/a", "1699999190", "{}")?;
    is_refused(&rt, alloc, bare.as_str(), "400 ", "{\"code\":\"J1\"}")?;
    let monitor = asked(
        alloc,
        "PUT /monitors/m1",
        "1699999190",
        "{\"monitorGranularityPeriod\":60,\"objectInstances\":[\"c7\"],\"thresholdInfoList\":[{\"hysteresis\":6,\"performanceMetrics\":[\"Att\"],\"thresholdDirection\":\"UP\",\"thresholdValue\":5}]}",
    )?;
    is_refused(&rt, alloc, monitor.as_str(), "422 ", "{\"code\":\"J11\"}")?;
    is_refused(
        &rt,
        alloc,
        "DELETE /jobs/none HTTP/1.1\r\n\r\n",
        "404 ",
        "{\"code\":\"J10\"}",
    )
}

#[test]
fn a_batch_is_refused_at_its_last_line(rt: HostRuntime) -> Result<(), Fail> {
    let alloc = rt.alloc();
    let lines = "c7 Att 1\n".repeat(alloc, 65_535)?;
    let body = format!(in alloc; "{lines}c7 Att")?;
    let batch = asked(alloc, "POST /events", "1699999260", body.as_str())?;
    is_refused(
        &rt,
        alloc,
        batch.as_str(),
        "422 ",
        "{\"code\":\"E1\",\"line\":65536}",
    )
}
