//! What no contract says of a head: that the definitions mean what RFC 9112 means, on rows made by hand.
use crate::*;
use pm_base::Code;
use pm_outside::{Feed, MemSource};
use std::alloc::{AllocError, Global};
use std::process::Abort;
use std::test::Fail;

// A request, of 18 bytes.
const FIRST: &[u8] = b"GET / HTTP/1.1\r\n\r\n";

// How the first request of the bytes is framed, where another one stands before it.
fn framing_of(alloc: Global, bytes: &[u8]) -> Result<Option<(Code, u64)>, AllocError> {
    let mut both = Vec::from_slice(alloc, FIRST)?;
    both.extend_from_slice(bytes)?;
    let mut source = MemSource::new(alloc, &both, &[])?;
    let mut feed = Feed::new(alloc)?;
    let Ok(Next::Request(_)) = next_request(alloc, &mut feed, &mut source) else {
        return Ok(None);
    };
    match next_request(alloc, &mut feed, &mut source) {
        Ok(Next::Framing { code, offset }) => Ok(Some((code, offset))),
        _ => Ok(None),
    }
}

// How bytes are refused whose source fails after the read that brought them; nothing where the fault is answered.
fn refusal_before_a_fault(alloc: Global, bytes: &[u8]) -> Result<Option<Code>, AllocError> {
    let mut source = MemSource::new(alloc, bytes, &[2])?;
    let mut feed = Feed::new(alloc)?;
    match next_request(alloc, &mut feed, &mut source) {
        Ok(Next::Framing { code, .. }) => Ok(Some(code)),
        _ => Ok(None),
    }
}

// The first request of the bytes.
fn first_of(alloc: Global, bytes: &[u8]) -> Result<Option<Request>, AllocError> {
    let mut source = MemSource::new(alloc, bytes, &[])?;
    let mut feed = Feed::new(alloc)?;
    match next_request(alloc, &mut feed, &mut source) {
        Ok(Next::Request(request)) => Ok(Some(request)),
        _ => Ok(None),
    }
}

// A head of so many bytes, which begins with these.
fn head_of(alloc: Global, front: &[u8], size: usize) -> Result<Vec<u8>, AllocError> {
    let mut bytes = Vec::from_slice(alloc, front)?;
    bytes.resize(size.saturating_sub(4), b'b')?;
    bytes.extend_from_slice(b"\r\n\r\n")?;
    Ok(bytes)
}

#[test]
fn a_refusal_has_the_code_of_the_first_rule_broken(rt: HostRuntime) -> Result<(), Fail> {
    let rows: [(&[u8], Code); 8] = [
        (b"BAD\r\n\r\n", Code::H1),
        (
            b"PUT / HTTP/1.1\r\nTransfer-encoding: chunked\r\nContent-Length: x\r\n\r\n",
            Code::H4,
        ),
        (
            b"PUT / HTTP/1.1\r\nContent-Length: 2\r\nCONTENT-LENGTH: 2\r\n\r\n{}",
            Code::H7,
        ),
        (b"GET / HTTP/1.1\r\nContent-Length:\r\n\r\n", Code::H7),
        (b"POST / HTTP/1.1\r\n\r\n", Code::H7),
        (
            b"GET / HTTP/1.1\r\nContent-Length: 0000000000002\r\n\r\n{}",
            Code::H7,
        ),
        (
            b"PUT / HTTP/1.1\r\nContent-Length: 000016777217\r\n\r\n",
            Code::H3,
        ),
        (b"GET /\xff HTTP/1.1\r\n\r\n", Code::H1),
    ];
    for (bytes, code) in rows {
        assert_eq!(rt;
            framing_of(rt.alloc(), bytes)?,
            Some((code, 18)),
            "at {bytes:?}"
        );
    }
    Ok(())
}

#[test]
fn a_head_has_at_most_16384_bytes(rt: HostRuntime) -> Result<(), Fail> {
    let front = b"GET / HTTP/1.1\r\nA: ".as_slice();
    let whole = head_of(rt.alloc(), front, 16_384)?;
    assert_eq!(rt; whole.len(), 16_384);
    assert!(rt; first_of(rt.alloc(), &whole)?.is_some());
    let long = head_of(rt.alloc(), front, 16_385)?;
    assert_eq!(rt; framing_of(rt.alloc(), &long)?, Some((Code::H2, 18)));
    Ok(())
}

#[test]
fn bytes_that_decide_are_answered_without_a_further_read(rt: HostRuntime) -> Result<(), Fail> {
    let mut long = Vec::from_slice(rt.alloc(), b"GET / HTTP/1.1\r\nA: ")?;
    long.resize(16_384, b'b')?;
    let mut short = Vec::from_slice(rt.alloc(), b"GET / HTTP/1.1\r\nA: ")?;
    short.resize(16_383, b'b')?;
    let rows: [(&[u8], Option<Code>); 5] = [
        (
            b"\x16\x03\x01\x00\xa5\x01\x00\x00\xa1\x03\x03",
            Some(Code::H1),
        ),
        (b"SSH-2.0-OpenSSH_9.6\r\n", Some(Code::H1)),
        (long.as_slice(), Some(Code::H2)),
        (b"GET / HTTP/1.1\r\n", None),
        (short.as_slice(), None),
    ];
    for (bytes, code) in rows {
        assert_eq!(rt;
            refusal_before_a_fault(rt.alloc(), bytes)?,
            code,
            "at {bytes:?}"
        );
    }
    Ok(())
}

#[test]
fn empty_lines_before_a_head_belong_to_it(rt: HostRuntime) -> Result<(), Fail> {
    for (count, refusal) in [
        (16_366, None),
        (16_367, Some((Code::H2, 18))),
        (40_000, Some((Code::H2, 18))),
    ] {
        let mut bytes = Vec::new(rt.alloc());
        bytes.resize(count, b'\n')?;
        bytes.extend_from_slice(FIRST)?;
        assert_eq!(rt; framing_of(rt.alloc(), &bytes)?, refusal, "at {count}");
    }
    Ok(())
}

#[test]
fn a_head_has_at_most_64_fields(rt: HostRuntime) -> Result<(), Fail> {
    for (count, refusal) in [(64, None), (65, Some((Code::H2, 18)))] {
        let mut bytes = Vec::from_slice(rt.alloc(), b"GET / HTTP/1.1\n")?;
        for _ in 0..count {
            bytes.extend_from_slice(b"a:\n")?;
        }
        bytes.push(b'\n')?;
        assert_eq!(rt; framing_of(rt.alloc(), &bytes)?, refusal, "at {count}");
    }
    Ok(())
}

#[test]
fn a_connection_closes_by_the_word_or_the_version(rt: HostRuntime) -> Result<(), Fail> {
    let rows: [(&[u8], bool); 7] = [
        (b"GET / HTTP/1.1\r\n\r\n", false),
        (b"GET / HTTP/1.0\r\nConnection: keep-alive\r\n\r\n", true),
        (b"GET / HTTP/1.1\nconnection: a,\t CLOSE ,b\n\n", true),
        (b"GET / HTTP/1.1\r\nConnection: closed\r\n\r\n", false),
        (
            b"GET / HTTP/1.1\r\nConnection: a\r\nConnection:close\r\n\r\n",
            true,
        ),
        (b"GET / HTTP/1.1\r\nConnection:\r\n\r\n", false),
        (b"GET / HTTP/1.1\r\nX-Connection: close\r\n\r\n", false),
    ];
    for (bytes, close) in rows {
        let closes = first_of(rt.alloc(), bytes)?.map(|request| request.close);
        assert_eq!(rt; closes, Some(close), "at {bytes:?}");
    }
    Ok(())
}

#[test]
fn the_end_inside_a_request_is_a_cut(rt: HostRuntime) -> Result<(), Fail> {
    let rows: [(&[u8], Option<u64>); 6] = [
        (b"", None),
        (b"GET / HTTP/1.1\r\n", Some(0)),
        (b"\n", Some(0)),
        (b"GET /\xff", Some(0)),
        (b"PUT / HTTP/1.1\r\nContent-Length: 3\r\n\r\n{}", Some(0)),
        (
            b"PUT / HTTP/1.1\r\nContent-Length: 16777216\r\n\r\n",
            Some(0),
        ),
    ];
    for (bytes, cut) in rows {
        let mut source = MemSource::new(rt.alloc(), bytes, &[])?;
        let mut feed = Feed::new(rt.alloc())?;
        let offset = match next_request(rt.alloc(), &mut feed, &mut source) {
            Ok(Next::CutShort { offset }) => Some(offset),
            Ok(Next::End) => None,
            _ => Some(99),
        };
        assert_eq!(rt; offset, cut, "at {bytes:?}");
    }
    Ok(())
}

#[test]
fn a_fault_of_the_source_is_answered(rt: HostRuntime) -> Result<(), Fail> {
    let mut source = MemSource::new(rt.alloc(), b"GET / HTTP/1.1\r\n\r\n", &[1])?;
    let mut feed = Feed::new(rt.alloc())?;
    let answer = next_request(rt.alloc(), &mut feed, &mut source);
    assert!(rt; matches!(answer, Err(HttpError::ReadFault)));
    Ok(())
}
