//! Exchanges with peers on this host.
use crate::TcpLink;
use pm_outside::{Link, LinkError};
use std::io::{self, Read, Write};
use std::net::{Ipv4Addr, Net, SocketAddr, TcpListener, TcpStream};
use std::test::Fail;
use std::thread::{Threads, join};
use std::time::{Clock, Duration};

#[test]
fn an_exchange_with_a_port_without_a_listener_fails(rt: HostRuntime) {
    let mut link = TcpLink::new(&rt);
    let reply = link.exchange(rt.alloc(), 1, b"GET / HTTP/1.1\r\n\r\n", 100);
    assert_eq!(rt; reply.err(), Some(LinkError::Failed));
    assert_eq!(rt; link.faults(), 1);
}

// Takes a connection, reads the request of four bytes, and answers.
fn serve(listener: &TcpListener, reply: &[u8], stays: bool) -> io::Result<()> {
    let (mut stream, _) = listener.accept()?;
    let mut request = [0u8; 4];
    stream.read_exact(&mut request)?;
    stream.write_all(reply)?;
    if stays {
        let _ = stream.read(&mut request);
    }
    Ok(())
}

// The length of the reply of a peer that answers this, cut after ten bytes; None where the exchange fails.
fn length_of_reply<R: Net<Listener = TcpListener, Stream = TcpStream> + Clock + Threads + Sync>(
    rt: &R,
    reply: &[u8],
    stays: bool,
) -> io::Result<Option<usize>>
where
    R: AllocGlobal,
{
    let listener = TcpListener::bind(rt, SocketAddr::from((Ipv4Addr::LOCALHOST, 0)))?;
    let port = listener.local_addr()?.port();
    let (served, got) = join(
        rt,
        || serve(&listener, reply, stays),
        || {
            let mut link = TcpLink::with_limit(rt, Duration::from_millis(300));
            match link.exchange(rt.alloc(), port, b"GET ", 10) {
                Ok(reply) => Some(reply.len()),
                Err(_) => None,
            }
        },
    );
    let _ = served;
    Ok(got)
}

#[test]
fn a_reply_is_read_to_its_end_or_to_the_limit_in_time(rt: HostRuntime) -> Result<(), Fail> {
    assert_eq!(rt; length_of_reply(&rt, b"12345", false)?, Some(5));
    assert_eq!(rt; length_of_reply(&rt, b"", false)?, Some(0));
    assert_eq!(rt; length_of_reply(&rt, b"12345678901", true)?, Some(10));
    assert_eq!(rt; length_of_reply(&rt, b"12345", true)?, None);
    Ok(())
}
