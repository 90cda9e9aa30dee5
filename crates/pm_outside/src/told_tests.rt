//! How a clock, a link and a listener in memory answer a list of calls.
ghost use Rattle.std.specs.Prelude.{◌≡◌, ◌++◌, [], OnOk};

use crate::*;
use pm_base::{Blob, LAST_MOMENT};
use std::test::Fail;

#[test]
fn a_clock_in_memory_fails_by_number_and_without_a_reading(rt: HostRuntime) -> Result<(), Fail> {
    let mut clock = MemClock::new(rt.alloc(), &[7, LAST_MOMENT + 1], &[2])?;
    let readings: [(Result<u64, Failed>, u64); 4] = [
        (Ok(7), 0),
        (Err(Failed), 1),
        (Ok(LAST_MOMENT), 1),
        (Err(Failed), 2),
    ];
    for (answer, faults) in readings {
        assert_eq!(rt; clock.now(), answer);
        assert_eq!(rt; clock.faults(), faults);
    }
    assert!(rt; clock.left().is_empty());
    Ok(())
}

#[test]
fn a_link_in_memory_cuts_replies_and_fails_by_number_and_without_one(
    rt: HostRuntime,
) -> Result<(), Fail> {
    let alloc = rt.alloc();
    let replies = vec![in alloc;
        Blob::from_slice(alloc, b"200")?,
        Blob::from_slice(alloc, b"404")?,
    ]?;
    let mut link = MemLink::new(alloc, replies, &[1])?;
    let exchanges: [(u32, Result<&[u8], LinkError>, u64); 4] = [
        (9, Err(LinkError::Failed), 1),
        (3, Ok(b"200"), 1),
        (1, Ok(b"4"), 1),
        (3, Err(LinkError::Failed), 2),
    ];
    for (limit, answer, faults) in exchanges {
        let reply = link.exchange(alloc, 80, b"GET", limit);
        assert_eq!(rt;
            reply.as_ref().map(|blob| blob.as_bytes()).map_err(|e| *e),
            answer
        );
        assert_eq!(rt; link.faults(), faults);
    }
    assert_eq!(rt; link.made().len(), 2);
    for exchange in link.made() {
        assert_eq!(rt; exchange.port, 80);
        assert_eq!(rt; exchange.request.as_bytes(), b"GET".as_slice());
    }
    Ok(())
}

// Ends every connection unread.
fn end_all<D: Doors>(doors: &mut D) -> Result<(), Failed>
    ensures ended { D.IsTold → OnOk result ((D.state doors.new).ended ≡ (D.state doors.old).ended ++ (D.state doors.old).left) }
    ensures left { D.IsTold → OnOk result ((D.state doors.new).left ≡ []) }
{
    for _ in 0..u64::MAX {
        match doors.next()? {
            Some((input, output)) => doors.done(input, output),
            None => return Ok(()),
        }
    }
    Err(Failed)
}

#[test]
fn a_listener_in_memory_fails_by_number_and_keeps_what_is_done(
    rt: HostRuntime,
) -> Result<(), Fail> {
    let alloc = rt.alloc();
    let first = (
        MemSource::new(alloc, b"a", &[])?,
        MemSink::new(alloc, 1, &[])?,
    );
    let second = (
        MemSource::new(alloc, b"b", &[])?,
        MemSink::new(alloc, 0, &[])?,
    );
    let mut doors = MemDoors::new(alloc, vec![in alloc; first, second]?, &[1, 3])?;
    assert_eq!(rt; doors.bind(80), Err(Failed));
    assert_eq!(rt; doors.bind(8080), Ok(()));
    assert_eq!(rt; end_all(&mut doors), Err(Failed));
    assert_eq!(rt; (doors.left(), doors.out(), doors.faults()), (2, 0, 2));
    assert_eq!(rt; end_all(&mut doors), Ok(()));
    assert_eq!(rt; (doors.left(), doors.out(), doors.faults()), (0, 0, 2));
    assert_eq!(rt; doors.port(), Some(8080));
    for ((source, _), byte) in doors.ended().iter().zip([b"a", b"b"]) {
        assert_eq!(rt; source.left(), byte.as_slice());
    }
    Ok(())
}
