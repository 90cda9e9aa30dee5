use super::*;
use std::alloc::Global;
use std::process::Abort;
use std::test::Fail;

#[test]
fn a_reply_is_read_with_a_body_of_the_length_that_its_head_tells(
    rt: HostRuntime,
) -> Result<(), Fail> {
    let reply = b"HTTP/1.1 404 Not Found\r\nDate: today\r\ncontent-LENGTH: 003\r\n\r\nabc";
    let answer = read_answer(rt.alloc(), reply)?;
    assert_eq!(rt; answer.status, 404);
    assert_eq!(rt; answer.body.as_bytes(), b"abc".as_slice());
    check_no_answer(&rt, rt.alloc(), &reply[..reply.len() - 1]);
    check_no_answer(&rt, rt.alloc(), b"");
    check_no_answer(
        &rt,
        rt.alloc(),
        b"HTTP/1.1 200 OK\r\nContent-Length: 1\r\n\r\nab",
    );
    check_no_answer(&rt, rt.alloc(), b"HTTP/1.1 200 OK\r\n\r\n");
    check_no_answer(
        &rt,
        rt.alloc(),
        b"HTTP/1.1 200 OK\r\nContent-Length: 0000000000001\r\n\r\na",
    );
    check_no_answer(
        &rt,
        rt.alloc(),
        b"HTTP/1.1 200 OK\r\nContent-Length: 1\r\nContent-Length: 1\r\n\r\na",
    );
    Ok(())
}

fn check_no_answer(rt: &impl Abort, alloc: Global, bytes: &[u8]) {
    let refused = read_answer(alloc, bytes);
    assert_eq!(rt; refused.err(), Some(AnswerError::X1));
}
