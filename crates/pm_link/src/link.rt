//! A link over TCP on 127.0.0.1. It counts faults and tells no replies.
ghost use Rattle.std.specs.Prelude.{◌≡◌, ◌≤◌, [], length, IfOk};
ghost use Rattle.pm_outside.specs.Exchanges.{LinkState};

use pm_base::Blob;
use pm_outside::{Link, LinkError};
use std::alloc::{AllocError, Global};
use std::io::{self, ErrorKind, Read, Write};
use std::net::{IpAddr, Ipv4Addr, Net, OpenStream, SocketAddr, TcpStream};
use std::time::{Clock, Duration, Instant};

// How many bytes are read at a time, at the most.
const PIECE: usize = 16_384;

/// A link that gives each exchange so long, from the connection to the end of the reply.
#[derive(Drop)]
pub struct TcpLink<'r, R: Net + Clock> {
    rt: &'r R,
    limit: Duration,
    faults: u64,
}

// Why an exchange gives no reply.
#[derive(Drop)]
enum Fault {
    Failed,
    Memory,
}

impl From<io::Error> for Fault {
    fn from(_: io::Error) -> Fault {
        Fault::Failed
    }
}

impl From<AllocError> for Fault {
    fn from(_: AllocError) -> Fault {
        Fault::Memory
    }
}

impl<'r, R: Net + Clock> TcpLink<'r, R> {
    /// A link with 60 seconds for an exchange.
    pub fn new(rt: &'r R) -> TcpLink<'r, R> {
        TcpLink::with_limit(rt, Duration::from_secs(60))
    }

    /// A link with this time.
    pub fn with_limit(rt: &'r R, limit: Duration) -> TcpLink<'r, R> {
        TcpLink {
            rt,
            limit,
            faults: 0,
        }
    }

    /// How often it has failed.
    pub fn faults(&self) -> u64
        ensures { result ≡ self.now.faults }
    {
        self.faults
    }

    // The time that is left of the exchange's.
    fn left(&self, begun: Instant) -> io::Result<Duration> {
        let spent = begun.elapsed(self.rt)?;
        match self.limit.checked_sub(spent) {
            Some(left) if !left.is_zero() => Ok(left),
            _ => Err(io::Error::from(ErrorKind::TimedOut)),
        }
    }

    fn put(&self, stream: &mut R::Stream, begun: Instant, bytes: &[u8]) -> io::Result<()> {
        let mut rest = bytes;
        for _ in 0..u64::MAX {
            if rest.is_empty() {
                return Ok(());
            }
            stream.set_write_timeout(Some(self.left(begun)?))?;
            let count = stream.write(rest)?;
            if count == 0 {
                break;
            }
            rest = &rest[count..];
        }
        Err(io::Error::from(ErrorKind::WriteZero))
    }

    // Reads up to the end of the stream, or so many bytes. Memory grows with what has come.
    fn take(
        &self,
        alloc: Global,
        stream: &mut R::Stream,
        begun: Instant,
        limit: usize,
    ) -> Result<Vec<u8>, Fault>
        ensures bound { IfOk result (λ reply. length reply.items ≤ limit) }
    {
        let mut reply = Vec::new(alloc);
        let mut piece = [0u8; PIECE];
        for _ in 0..u64::MAX {
            if reply.len() >= limit {
                break;
            }
            let room = PIECE.min(limit - reply.len());
            stream.set_read_timeout(Some(self.left(begun)?))?;
            let count = stream.read(&mut piece[..room])?;
            if count == 0 {
                break;
            }
            reply.extend_from_slice(&piece[..count])?;
        }
        Ok(reply)
    }

    fn reply(
        &self,
        alloc: Global,
        port: u16,
        request: &[u8],
        limit: usize,
    ) -> Result<Vec<u8>, Fault>
        ensures bound { IfOk result (λ reply. length reply.items ≤ limit) }
    {
        let address = SocketAddr::new(IpAddr::V4(Ipv4Addr::new(127, 0, 0, 1)), port);
        let begun = Instant::now(self.rt)?;
        let mut stream = TcpStream::connect_timeout(self.rt, &address, self.limit)?;
        stream.set_nodelay(true)?;
        self.put(&mut stream, begun, request)?;
        self.take(alloc, &mut stream, begun, limit)
    }
}

impl<R: Net + Clock> Link for TcpLink<'_, R> {
    ghost IsTold = { ⊥ };

    ghost state = { λ l. record { left = []; made = [] } };

    ghost faults = { λ l. l.faults };

    fn exchange(
        &mut self,
        alloc: Global,
        port: u16,
        request: &[u8],
        limit: u32,
    ) -> Result<Blob, LinkError> {
        match self.reply(alloc, port, request, limit as usize) {
            Ok(reply) => Ok(Blob::from_vec(reply)),
            Err(Fault::Memory) => Err(LinkError::Memory),
            Err(Fault::Failed) => {
                self.faults = self.faults.saturating_add(1);
                Err(LinkError::Failed)
            }
        }
    }
}
