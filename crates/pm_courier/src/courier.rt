//! A courier over TCP on 127.0.0.1. It counts faults and tells no posts.
ghost use Rattle.std.specs.Prelude.{◌≡◌, [], length};

use crate::answer::{Answer, HEAD_BYTES, answer_of};
use pm_outside::{Courier, Failed};
use std::io::{self, ErrorKind, Read, Write};
use std::net::{IpAddr, Ipv4Addr, Net, OpenStream, SocketAddr, TcpStream};
use std::time::{Clock, Duration, Instant};

/// A courier that gives a consumer so long to take the connection, and so long in all to answer.
#[derive(Drop)]
pub struct HttpCourier<'r, R: Net + Clock> {
    rt: &'r R,
    connect: Duration,
    answer: Duration,
    faults: u64,
}

impl<'r, R: Net + Clock> HttpCourier<'r, R> {
    /// A courier with five seconds for each.
    pub fn new(rt: &'r R) -> HttpCourier<'r, R> {
        HttpCourier::with_limits(rt, Duration::from_secs(5), Duration::from_secs(5))
    }

    /// A courier with these times.
    pub fn with_limits(rt: &'r R, connect: Duration, answer: Duration) -> HttpCourier<'r, R> {
        HttpCourier {
            rt,
            connect,
            answer,
            faults: 0,
        }
    }

    /// How often it has failed.
    pub fn faults(&self) -> u64
        ensures { result ≡ self.now.faults }
    {
        self.faults
    }

    // The time that is left of the answer's.
    fn left(&self, begun: Instant) -> io::Result<Duration> {
        let spent = begun.elapsed(self.rt)?;
        match self.answer.checked_sub(spent) {
            Some(left) if !left.is_zero() => Ok(left),
            _ => Err(io::Error::from(ErrorKind::TimedOut)),
        }
    }

    fn put(&self, stream: &mut R::Stream, begun: Instant, bytes: &[u8]) -> io::Result<()> {
        let mut rest = bytes;
        for _ in 0..u64::MAX {
            if rest.is_empty() {
                return Ok(());
            }
            stream.set_write_timeout(Some(self.left(begun)?))?;
            let count = stream.write(rest)?;
            if count == 0 {
                break;
            }
            rest = &rest[count..];
        }
        Err(io::Error::from(ErrorKind::WriteZero))
    }

    fn request(
        &self,
        stream: &mut R::Stream,
        begun: Instant,
        path: &[u8],
        body: &[u8],
    ) -> io::Result<()> {
        let mut digits = itoa::Buffer::new();
        self.put(stream, begun, b"POST ")?;
        self.put(stream, begun, path)?;
        self.put(
            stream,
            begun,
            b" HTTP/1.1\r\nHost: 127.0.0.1\r\nContent-Type: application/json\r\nContent-Length: ",
        )?;
        self.put(stream, begun, digits.format(body.len()).as_bytes())?;
        self.put(stream, begun, b"\r\nConnection: close\r\n\r\n")?;
        self.put(stream, begun, body)
    }

    fn answered(&self, stream: &mut R::Stream, begun: Instant) -> io::Result<bool> {
        let mut head = [0u8; HEAD_BYTES];
        let mut length = 0;
        for _ in 0..u64::MAX {
            let Some(read) = head.get(..length) else {
                return Ok(false);
            };
            match answer_of(read) {
                Answer::Taken => return Ok(true),
                Answer::Refused => return Ok(false),
                Answer::Open => {}
            }
            if length == HEAD_BYTES {
                return Ok(false);
            }
            stream.set_read_timeout(Some(self.left(begun)?))?;
            let count = stream.read(&mut head[length..])?;
            if count == 0 {
                return Ok(false);
            }
            length += count;
        }
        Ok(false)
    }

    fn exchange(&self, port: u16, path: &[u8], body: &[u8]) -> io::Result<bool> {
        let address = SocketAddr::new(IpAddr::V4(Ipv4Addr::new(127, 0, 0, 1)), port);
        let mut stream = TcpStream::connect_timeout(self.rt, &address, self.connect)?;
        let begun = Instant::now(self.rt)?;
        stream.set_nodelay(true)?;
        self.request(&mut stream, begun, path, body)?;
        self.answered(&mut stream, begun)
    }
}

impl<R: Net + Clock> Courier for HttpCourier<'_, R> {
    ghost IsTold = { ⊥ };

    ghost posts = { λ c. [] };

    ghost faults = { λ c. c.faults };

    fn post(&mut self, port: u16, path: &[u8], body: &[u8]) -> Result<(), Failed> {
        if let Ok(true) = self.exchange(port, path, body) {
            return Ok(());
        }
        self.faults = self.faults.saturating_add(1);
        Err(Failed)
    }
}
