//! What no contract says: that calls succeed with ample memory, and how the objects in memory answer a list of calls.
use crate::*;
use std::test::Fail;

#[test]
fn a_source_in_memory_fails_at_the_calls_of_its_list(rt: HostRuntime) -> Result<(), Fail> {
    let mut source = MemSource::new(rt.alloc(), b"end\n", &[1, 3])?;
    let mut buf = [0u8; 3];
    let reads: [(Result<usize, Failed>, u64, &[u8]); 5] = [
        (Err(Failed), 1, b"end\n"),
        (Ok(3), 1, b"\n"),
        (Err(Failed), 2, b"\n"),
        (Ok(1), 2, b""),
        (Ok(0), 2, b""),
    ];
    for (answer, faults, left) in reads {
        assert_eq!(rt; source.read(&mut buf), answer);
        assert_eq!(rt; source.faults(), faults);
        assert_eq!(rt; source.left(), left);
    }
    assert_eq!(rt; buf, *b"\nnd");
    Ok(())
}

#[test]
fn a_sink_in_memory_fails_by_number_and_by_room(rt: HostRuntime) -> Result<(), Fail> {
    let mut sink = MemSink::new(rt.alloc(), 4, &[2])?;
    let puts: [(&[u8], Result<(), Failed>, u64, &[u8]); 6] = [
        (b"12", Ok(()), 0, b"12"),
        (b"3", Err(Failed), 1, b"12"),
        (b"345", Err(Failed), 2, b"12"),
        (b"34", Ok(()), 2, b"1234"),
        (b"", Ok(()), 2, b"1234"),
        (b"5", Err(Failed), 3, b"1234"),
    ];
    for (bytes, answer, faults, written) in puts {
        assert_eq!(rt; sink.put(bytes), answer, "at {bytes:?}");
        assert_eq!(rt; sink.faults(), faults, "at {bytes:?}");
        assert_eq!(rt; sink.written(), written, "at {bytes:?}");
    }
    Ok(())
}

#[test]
fn a_feed_goes_on_after_a_failed_read(rt: HostRuntime) -> Result<(), Fail> {
    let mut source = MemSource::new(rt.alloc(), b"end\n\nlast", &[2])?;
    let mut feed = Feed::new(rt.alloc())?;
    assert_eq!(rt; feed.line(&mut source), Ok(Line::Whole { length: 3 }));
    assert_eq!(rt; feed.bytes(), b"end".as_slice());
    assert_eq!(rt; feed.line(&mut source), Ok(Line::Whole { length: 0 }));
    assert_eq!(rt; feed.line(&mut source), Err(FeedError::Failed));
    assert_eq!(rt; feed.given(), 5);
    assert_eq!(rt; feed.line(&mut source), Ok(Line::Whole { length: 4 }));
    assert_eq!(rt; feed.bytes(), b"last".as_slice());
    assert_eq!(rt; feed.line(&mut source), Ok(Line::End));
    assert_eq!(rt; feed.given(), 9);
    Ok(())
}

#[test]
fn a_long_line_stays_and_is_taken_as_bytes(rt: HostRuntime) -> Result<(), Fail> {
    let mut source = MemSource::new(rt.alloc(), &[b'a'; 2049], &[])?;
    let mut feed = Feed::new(rt.alloc())?;
    assert_eq!(rt; feed.line(&mut source), Ok(Line::Long));
    let mut buf = [0u8; 2048];
    assert_eq!(rt; feed.take(&mut source, &mut buf[..1]), Ok(1));
    assert_eq!(rt; feed.line(&mut source), Ok(Line::Whole { length: 2048 }));
    assert_eq!(rt; feed.take(&mut source, &mut buf), Ok(0));
    assert_eq!(rt; feed.given(), 2049);
    Ok(())
}
