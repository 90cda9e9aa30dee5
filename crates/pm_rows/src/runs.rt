//! `run`: from an inventory and requests to replies, over a disk in memory.

use crate::tally::{no_link, spelled, words};
use pm_base::Code;
use pm_disk::{Area, MemDisk};
use pm_outside::{MemCourier, MemSink, MemSource};
use pm_top::{Status, pmd};
use std::alloc::Global;
use std::process::Abort;
use std::test::Fail;

const ROOM: u64 = 65536;

// A job, whose text is a reply's body too, with its id and states.
const JOB: &str =
    "{\"granularityPeriod\":900,\"objectInstances\":[\"c7\"],\"performanceMetrics\":[\"Att\"],\"reportingPeriod\":15}";

// A request with a body. The length of the body is that of its spelled text.
pub fn asked(alloc: Global, line: &str, moment: &str, body: &str) -> Result<String, Fail> {
    let body = spelled(alloc, body)?;
    let length = body.as_str().len();
    Ok(format!(in alloc;
        "{line} HTTP/1.1\r\nPm-Moment: {moment}\r\nContent-Length: {length}\r\n\r\n{body}"
    )?)
}

/// What `run` writes over these requests, after the default inventory.
pub fn written_by(rt: &impl Abort, alloc: Global, requests: &str) -> Result<Vec<u8>, Fail> {
    let input = format!(in alloc; "end\n{requests}")?;
    let mut source = MemSource::new(alloc, input.as_bytes(), &[])?;
    let mut sink = MemSink::new(alloc, ROOM, &[])?;
    let mut disk = MemDisk::new(alloc, ROOM, &[])?;
    let mut courier = MemCourier::new(alloc, 0, 0, &[])?;
    let run = words(alloc, &["run", "--boot", "1699999100"])?;
    assert_eq!(rt;
        pmd(
            alloc,
            &run,
            &mut source,
            &mut sink,
            &mut disk,
            &mut courier,
            &mut no_link(alloc)?
        ),
        Status::Done,
        "at {requests:?}"
    );
    Ok(Vec::from_slice(alloc, sink.written())?)
}

// `run` from this boot over these requests, after the default inventory, ends so and writes this.
fn ends(
    rt: &impl Abort,
    alloc: Global,
    requests: &str,
    status: Status,
    replies: &str,
) -> Result<(), Fail> {
    let input = format!(in alloc; "end\n{requests}")?;
    let mut source = MemSource::new(alloc, input.as_bytes(), &[])?;
    let mut sink = MemSink::new(alloc, ROOM, &[])?;
    let mut disk = MemDisk::new(alloc, ROOM, &[])?;
    let mut courier = MemCourier::new(alloc, 0, 0, &[])?;
    let run = words(alloc, &["run", "--boot", "1699999100"])?;
    assert_eq!(rt;
        pmd(
            alloc,
            &run,
            &mut source,
            &mut sink,
            &mut disk,
            &mut courier,
            &mut no_link(alloc)?
        ),
        status,
        "at {requests:?}"
    );
    assert_eq!(rt; sink.written(), replies.as_bytes(), "at {requests:?}");
    Ok(())
}

#[test]
fn framing_is_refused_at_its_place(rt: HostRuntime) -> Result<(), Fail> {
    let alloc = rt.alloc();
    let rows = [
        (
            "BAD\r\n\r\n",
            0,
            Code::H1,
            "HTTP/1.1 400 Bad Request\r\nContent-Type: application/json\r\nContent-Length: 13\r\nPm-Moment: 1699999100\r\nConnection: close\r\n\r\n{\"code\":\"H1\"}",
        ),
        ("GET /jobs/a HTTP/1.1\r\n", 0, Code::H9, ""),
        (
            "PUT /jobs/a HTTP/1.1\r\nContent-Length: 16777217\r\n\r\n",
            0,
            Code::H3,
            "HTTP/1.1 413 Payload Too Large\r\nContent-Type: application/json\r\nContent-Length: 13\r\nPm-Moment: 1699999100\r\nConnection: close\r\n\r\n{\"code\":\"H3\"}",
        ),
        (
            "GET /nowhere HTTP/1.1\r\nPm-Moment: 1699999101\r\n\r\nPOST /files HTTP/1.1\r\n\r\n",
            48,
            Code::H7,
            "HTTP/1.1 404 Not Found\r\nContent-Type: application/json\r\nContent-Length: 13\r\nPm-Moment: 1699999101\r\n\r\n{\"code\":\"H5\"}HTTP/1.1 400 Bad Request\r\nContent-Type: application/json\r\nContent-Length: 13\r\nPm-Moment: 1699999101\r\nConnection: close\r\n\r\n{\"code\":\"H7\"}",
        ),
    ];
    for (requests, place, code, replies) in rows {
        ends(
            &rt,
            alloc,
            requests,
            Status::BadInput { place, code },
            replies,
        )?;
    }
    Ok(())
}

#[test]
fn requests_are_answered_in_order(rt: HostRuntime) -> Result<(), Fail> {
    let alloc = rt.alloc();
    let made = asked(alloc, "PUT /jobs/job1", "1699999190", JOB)?;
    let counted = asked(alloc, "POST /events", "1699999200", "c7 Att 2\nc7 Att 3\n")?;
    let refused = asked(alloc, "POST /events", "1699999261", "c7 Att 1\nc7 Att\n")?;
    let requests = format!(in alloc;
        "{made}{counted}{refused}HEAD /jobs/job1 HTTP/1.1\r\nPm-Moment: soon\r\n\r\nGET /jobs/job2 HTTP/1.0\r\n\r\nBAD"
    )?;
    let replies = spelled(
        alloc,
        "HTTP/1.1 201 Created\r\nContent-Type: application/json\r\nContent-Length: 268\r\nPm-Moment: 1699999190\r\n\r\n{\"administrativeState\":\"UNLOCKED\",\"granularityPeriod\":900,\"jobId\":\"job1\",\"objectInstances\":[\"c7\"],\"operationalState\":\"ENABLED\",\"performanceMetrics\":[\"Att\"],\"reportingPeriod\":15,\"rootObjectInstances\":[]}HTTP/1.1 202 Accepted\r\nContent-Type: application/json\r\nContent-Length: 14\r\nPm-Moment: 1699999200\r\n\r\n{\"accepted\":2}HTTP/1.1 422 Unprocessable Entity\r\nContent-Type: application/json\r\nContent-Length: 22\r\nPm-Moment: 1699999261\r\n\r\n{\"code\":\"E1\",\"line\":2}HTTP/1.1 400 Bad Request\r\nContent-Type: application/json\r\nContent-Length: 13\r\nPm-Moment: 1699999261\r\n\r\nHTTP/1.1 404 Not Found\r\nContent-Type: application/json\r\nContent-Length: 14\r\nPm-Moment: 1699999261\r\nConnection: close\r\n\r\n{\"code\":\"J10\"}",
    )?;
    ends(&rt, alloc, &requests, Status::Done, &replies)
}

// How many items stand in the area of a store: gates that are open, one after the other.
fn count_items(area: &[u8]) -> u64 {
    let mut left = area.get(8..).unwrap_or_default();
    let mut count = 0u64;
    for _ in 0..area.len() {
        let [1, a, b, c, d, rest @ ..] = left else {
            break;
        };
        let Some(rest) = rest.get(u32::from_be_bytes([*a, *b, *c, *d]) as usize..) else {
            break;
        };
        left = rest;
        count = count.saturating_add(1);
    }
    count
}

// How many replies the output has that tell of a success.
fn count_successes(output: &[u8]) -> u64 {
    output
        .windows(11)
        .filter(|w| *w == b"HTTP/1.1 20".as_slice())
        .count() as u64
}

#[test]
fn each_change_that_is_replied_to_is_stored(rt: HostRuntime) -> Result<(), Fail> {
    let alloc = rt.alloc();
    let made = asked(alloc, "PUT /jobs/a", "1699999101", JOB)?;
    let also = asked(alloc, "PUT /jobs/b", "1699999102", JOB)?;
    let input = format!(in alloc; "end\n{made}{also}DELETE /jobs/a HTTP/1.1\r\n\r\n")?;
    let run = words(alloc, &["run", "--boot=1699999100", "--workers", "1"])?;
    let mut ended = 0u64;
    for call in 1..40 {
        let mut source = MemSource::new(alloc, input.as_bytes(), &[])?;
        let mut sink = MemSink::new(alloc, ROOM, &[])?;
        let mut disk = MemDisk::new(alloc, ROOM, &[call])?;
        let mut courier = MemCourier::new(alloc, 0, 0, &[])?;
        let status = pmd(
            alloc,
            &run,
            &mut source,
            &mut sink,
            &mut disk,
            &mut courier,
            &mut no_link(alloc)?,
        );
        let items = count_items(disk.bytes(Area::First));
        let replies = count_successes(sink.written());
        if status == Status::Done {
            assert_eq!(rt; (replies, items), (3, 4));
            ended = call;
            break;
        }
        assert_eq!(rt; status, Status::StoreFault, "at {call}");
        assert!(rt;
            replies == 0 || items > replies,
            "at {call}: {replies} replies, {items} items"
        );
    }
    assert!(rt; ended > 12, "{ended}");
    Ok(())
}
