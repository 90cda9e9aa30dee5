//! Posts to consumers on this host.
use crate::HttpCourier;
use crate::answer::{Answer, answer_of};
use pm_outside::Courier;
use std::io::{self, Read, Write};
use std::net::{Ipv4Addr, Net, SocketAddr, TcpListener, TcpStream};
use std::test::Fail;
use std::thread::{self, Threads, join};
use std::time::{Clock, Duration, Instant};

#[test]
fn a_post_to_a_port_without_a_listener_fails(rt: HostRuntime) -> Result<(), Fail> {
    let mut courier = HttpCourier::new(&rt);
    assert!(rt; courier.post(1, b"/notify", b"{}").is_err());
    assert_eq!(rt; courier.faults(), 1);
    Ok(())
}

#[test]
fn a_reply_is_taken_by_its_status(rt: HostRuntime) {
    let cases: [(&[u8], Answer); 8] = [
        (b"HTTP/1.1 200 OK\r\n\r\n", Answer::Taken),
        (b"HTTP/1.0 299\r\nA: b\r\n\r\nrest", Answer::Taken),
        (b"HTTP/1.1 199 No\r\n\r\n", Answer::Refused),
        (b"HTTP/1.1 300 No\r\n\r\n", Answer::Refused),
        (b"HTTP/1.1 204 No Content\r\n", Answer::Open),
        (b"", Answer::Open),
        (b"HTTP/2 200\r\n\r\n", Answer::Refused),
        (b"204", Answer::Refused),
    ];
    for (bytes, want) in cases {
        assert_eq!(rt; answer_of(bytes), want, "at {bytes:?}");
    }
}

/// What a consumer does with a connection.
#[derive(Clone, Copy, Debug)]
enum Manner {
    Answers(&'static [u8]),
    Silent,
    /// A byte of a head each 20 milliseconds.
    Trickles,
    Closes,
}

// Reads until the connection ends.
fn drain(stream: &mut TcpStream) {
    let mut bytes = [0u8; 64];
    for _ in 0..10_000 {
        match stream.read(&mut bytes) {
            Ok(0) | Err(_) => return,
            Ok(_) => {}
        }
    }
}

fn trickle<R: Clock>(rt: &R, stream: &mut TcpStream) -> io::Result<()> {
    stream.write_all(b"HTTP/1.1 204 No Content\r\nA: ")?;
    for _ in 0..1_000 {
        stream.write_all(b"a")?;
        thread::sleep(rt, Duration::from_millis(20));
    }
    Ok(())
}

fn consume<R: Clock>(rt: &R, listener: &TcpListener, manner: Manner) -> io::Result<()> {
    let (mut stream, _) = listener.accept()?;
    match manner {
        Manner::Closes => return Ok(()),
        Manner::Silent => {}
        Manner::Trickles => trickle(rt, &mut stream)?,
        Manner::Answers(reply) => stream.write_all(reply)?,
    }
    drain(&mut stream);
    Ok(())
}

// Whether a post is taken, where the consumer has so many milliseconds to answer.
fn is_taken<R: Net<Listener = TcpListener, Stream = TcpStream> + Clock + Threads + Sync>(
    rt: &R,
    manner: Manner,
    limit: u64,
) -> io::Result<bool> {
    let listener = TcpListener::bind(rt, SocketAddr::from((Ipv4Addr::LOCALHOST, 0)))?;
    let port = listener.local_addr()?.port();
    let (consumed, posted) = join(
        rt,
        || consume(rt, &listener, manner),
        || {
            let limit = Duration::from_millis(limit);
            HttpCourier::with_limits(rt, Duration::from_secs(5), limit)
                .post(port, b"/notify", b"{}")
                .is_ok()
        },
    );
    let _ = consumed;
    Ok(posted)
}

#[test]
fn a_consumer_that_does_not_answer_in_time_fails(rt: HostRuntime) -> Result<(), Fail> {
    let cases: [(Manner, u64, bool); 5] = [
        (
            Manner::Answers(b"HTTP/1.1 204 No Content\r\n\r\n"),
            5_000,
            true,
        ),
        (Manner::Answers(b"HTTP/1.1 500 No\r\n\r\n"), 5_000, false),
        (Manner::Silent, 200, false),
        (Manner::Trickles, 200, false),
        (Manner::Closes, 5_000, false),
    ];
    for (manner, limit, want) in cases {
        let begun = Instant::now(&rt)?;
        assert_eq!(rt; is_taken(&rt, manner, limit)?, want, "at {manner:?}");
        assert!(rt;
            begun.elapsed(&rt)? < Duration::from_secs(10),
            "at {manner:?}"
        );
    }
    Ok(())
}
