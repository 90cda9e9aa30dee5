//! What no contract says of a stream: that its requests are read however the source cuts it, beside a plain reading.
ghost use Rattle.std.specs.Prelude.{List, []};

use crate::plain_tests::{Plain, plain_request};
use crate::*;
use pm_outside::{Failed, Feed, Source};
use std::alloc::{AllocError, Global};
use std::process::Abort;
use std::test::Fail;

/// A source that gives at most so many bytes a read.
#[derive(Drop)]
struct Slow<'a> {
    left: &'a [u8],
    most: usize,
}

impl Source for Slow<'_> {
    ghost IsTold = { ⊥ };

    ghost left = { λ _. [] };

    ghost faults = { λ _. 0 };

    fn read(&mut self, buf: &mut [u8]) -> Result<usize, Failed> {
        let count = self.left.len().min(buf.len()).min(self.most);
        buf[..count].copy_from_slice(&self.left[..count]);
        self.left = &self.left[count..];
        Ok(count)
    }
}

// Requests, one after the other.
const STREAM: &[u8] =
    b"PUT /jobs/a HTTP/1.1\r\nPm-Moment: \t12 \r\nContent-Length: 2\r\npm-moment: 3\r\n\r\n{}\
\r\nDELETE /jobs/a?b HTTP/1.0\n\n\
GET /files HTTP/1.1\nconnection: keep-alive ,\tClose\n\r\n\
\n\r\n\nPOST /events HTTP/1.1\r\ncontent-length:  000000000011 \r\nContent-length2: 7\r\nConnection: closed\r\n\r\nA line\n\r\n\r\n";

// How many requests it has.
const MANY: usize = 4;

// Whether a request is the one that the plain reading finds.
fn is_plain(request: &Request, plain: &Plain<'_>, body: &[u8]) -> bool {
    let moment = match &request.moment {
        Some(moment) => Some(moment.as_bytes()),
        None => None,
    };
    request.method.as_bytes() == plain.method
        && request.target.as_bytes() == plain.target
        && moment == plain.moment
        && request.close == plain.close
        && request.body.as_bytes() == body
}

// Whether the requests of the stream are those that the plain reading finds, read so many bytes at a time.
fn reads_as_plain(alloc: Global, most: usize) -> Result<bool, AllocError> {
    let mut source = Slow { left: STREAM, most };
    let mut feed = Feed::new(alloc)?;
    let mut left = STREAM;
    for _ in 0..MANY {
        let Some(plain) = plain_request(left) else {
            return Ok(false);
        };
        let Some((head, rest)) = left.split_at_checked(plain.head) else {
            return Ok(false);
        };
        let Some((body, rest)) = rest.split_at_checked(plain.body) else {
            return Ok(false);
        };
        let before = feed.given();
        let Ok(Next::Request(request)) = next_request(alloc, &mut feed, &mut source) else {
            return Ok(false);
        };
        let taken = feed.given().wrapping_sub(before);
        if taken != (head.len() as u64).wrapping_add(body.len() as u64)
            || !is_plain(&request, &plain, body)
        {
            return Ok(false);
        }
        left = rest;
    }
    Ok(true)
}

#[test]
fn requests_are_those_of_a_plain_reading_however_the_source_cuts_them(
    rt: HostRuntime,
) -> Result<(), Fail> {
    for most in 1..STREAM.len() {
        assert!(rt; reads_as_plain(rt.alloc(), most)?, "at {most}");
    }
    Ok(())
}
