//! Runs of a collector over objects in memory.
use crate::{FetchEnd, collect};
use pm_base::{Blob, Code};
use pm_disk::MemDisk;
use pm_outside::{MemLink, MemSink, MemSource};
use std::alloc::{AllocError, Global};
use std::process::Abort;
use std::test::Fail;

const A: &str =
    r#"{"fileFooter":{"endTime":1700000100},"fileHeader":{"beginTime":1699999200,"fileFormatVersion":"PM1","jobId":"job1","senderName":"ManagedElement=ME1"},"measData":[{"beginTime":1699999200,"endTime":1700000100,"granularityPeriod":900,"measInfo":[{"measTypes":["RRC.ConnEstabAtt.mo-Data"],"measValues":[{"measObjInstId":"ManagedElement=ME1,GNBCUCPFunction=1,NRCellCU=7","measResults":[5],"suspectFlag":false}],"objectClass":"NRCellCU"}]}]}"#;

const B: &str =
    r#"{"fileFooter":{"endTime":1700000100},"fileHeader":{"beginTime":1699999200,"fileFormatVersion":"PM1","jobId":"job2","senderName":"ManagedElement=ME1"},"measData":[{"beginTime":1699999200,"endTime":1700000100,"granularityPeriod":900,"measInfo":[{"measTypes":["RRC.ConnEstabAtt.mo-Data"],"measValues":[{"measObjInstId":"ManagedElement=ME1,GNBCUCPFunction=1,NRCellCU=7","measResults":[5],"suspectFlag":false}],"objectClass":"NRCellCU"}]}]}"#;

const LISTING: &str =
    r#"{"fileInfoList":[{"fileDataType":"Performance","fileExpirationTime":1700086500,"fileFormat":"JSON","fileLocation":"/files/A20231114.2200+0000-2215+0000_-job1_ME1","fileReadyTime":1700000100,"fileSize":435},{"fileDataType":"Performance","fileExpirationTime":1700086500,"fileFormat":"JSON","fileLocation":"/files/A20231114.2200+0000-2215+0000_-job2_ME1","fileReadyTime":1700000100,"fileSize":435}]}"#;

const NOTICES: &[u8] =
    br#"{"eventTime":1700000100,"fileInfoList":[{"fileDataType":"Performance","fileExpirationTime":1700086500,"fileFormat":"JSON","fileLocation":"/files/A20231114.2200+0000-2215+0000_-job2_ME1","fileReadyTime":1700000100,"fileSize":435}],"notificationId":0,"notificationType":"notifyFileReady","objectInstance":"ManagedElement=ME1"}
{"eventTime":1700000100,"fileInfoList":[{"fileDataType":"Performance","fileExpirationTime":1700086500,"fileFormat":"JSON","fileLocation":"/files/A20231114.2200+0000-2215+0000_-job2_ME1","fileReadyTime":1700000100,"fileSize":435}],"notificationId":0,"notificationType":"notifyFileReady","objectInstance":"ManagedElement=ME1"}
"#;

const LINES: &[u8] =
    b"A20231114.2200+0000-2215+0000_-job1_ME1 435\nA20231114.2200+0000-2215+0000_-job2_ME1 435\n";

// A reply with this body.
fn reply(alloc: Global, body: &str) -> Result<Blob, AllocError> {
    let size = body.len();
    let text = format!(in alloc; "HTTP/1.1 200 OK\r\nContent-Length: {size}\r\n\r\n{body}")?;
    Blob::from_slice(alloc, text.as_bytes())
}

// A link that gives these bodies, one after another.
fn link(alloc: Global, bodies: &[&str]) -> Result<MemLink, AllocError> {
    let mut replies = Vec::new(alloc);
    for body in bodies {
        replies.push(reply(alloc, body)?)?;
    }
    MemLink::new(alloc, replies, &[])
}

// How a run ends, and whether it has written these lines.
fn run(
    alloc: Global,
    input: &[u8],
    disk: &mut MemDisk,
    link: &mut MemLink,
    lines: &[u8],
) -> Result<(FetchEnd, bool), AllocError> {
    let mut input = MemSource::new(alloc, input, &[])?;
    let mut output = MemSink::new(alloc, 1000, &[])?;
    let end = collect(alloc, 8080, &mut input, &mut output, disk, link);
    Ok((end, output.written() == lines))
}

#[test]
fn a_told_file_then_the_listing_then_what_is_missing_of_it(rt: HostRuntime) -> Result<(), Fail> {
    let mut disk = MemDisk::new(rt.alloc(), 4000, &[])?;
    let mut peer = link(rt.alloc(), &[B, LISTING, A])?;
    assert_eq!(rt;
        run(rt.alloc(), NOTICES, &mut disk, &mut peer, LINES)?,
        (FetchEnd::Done, true)
    );
    assert_eq!(rt; peer.made().len(), 3);
    assert_eq!(rt;
        peer.made()[1].request.as_bytes(),
        b"GET /files HTTP/1.1\r\nHost: localhost\r\nConnection: close\r\n\r\n".as_slice()
    );
    let mut peer = link(rt.alloc(), &[LISTING])?;
    assert_eq!(rt;
        run(rt.alloc(), b"", &mut disk, &mut peer, LINES)?,
        (FetchEnd::Done, true)
    );
    Ok(())
}

#[test]
fn a_listing_that_is_none_and_a_line_that_is_no_notice_are_refused(
    rt: HostRuntime,
) -> Result<(), Fail> {
    let mut disk = MemDisk::new(rt.alloc(), 4000, &[])?;
    let mut peer = link(rt.alloc(), &["[]"])?;
    let refused = FetchEnd::BadPeer {
        place: 1,
        code: Code::C2,
    };
    assert_eq!(rt;
        run(rt.alloc(), b"", &mut disk, &mut peer, b"")?,
        (refused, true)
    );
    assert_eq!(rt;
        run(rt.alloc(), b"{}\n", &mut disk, &mut peer, b"")?,
        (FetchEnd::NoNotice { line: 1 }, true)
    );
    assert_eq!(rt;
        run(rt.alloc(), b"", &mut disk, &mut peer, b"")?,
        (FetchEnd::LinkFault, true)
    );
    Ok(())
}

#[test]
fn after_a_fault_of_the_disk_the_next_run_ends_with_each_file_once(
    rt: HostRuntime,
) -> Result<(), Fail> {
    let mut faults = 0u32;
    for call in 1..21 {
        let mut disk = MemDisk::new(rt.alloc(), 8000, &[call])?;
        let mut peer = link(rt.alloc(), &[B, LISTING, A])?;
        match run(rt.alloc(), NOTICES, &mut disk, &mut peer, LINES)?.0 {
            FetchEnd::StoreFault => faults = faults.saturating_add(1),
            end => assert_eq!(rt; end, FetchEnd::Done, "at call {call}"),
        }
        // The first of the two may be held already, or both.
        let mut peer = link(rt.alloc(), &[LISTING, A, B])?;
        assert_eq!(rt;
            run(rt.alloc(), b"", &mut disk, &mut peer, LINES)?,
            (FetchEnd::Done, true),
            "at call {call}"
        );
    }
    assert_eq!(rt; faults, 20);
    Ok(())
}
