//! What no contract says of routes, replies and queries: that the calls succeed, and what the tables mean.

use crate::*;
use pm_base::{Blob, Code, Text};
use pm_outside::MemSink;
use std::alloc::{AllocError, Global};
use std::process::Abort;
use std::test::Fail;

// A request without moment and body, of a short method and target.
fn request(alloc: Global, method: &[u8], target: &[u8]) -> Result<Request, AllocError> {
    Ok(Request {
        method: Text::from_slice(alloc, &method[..method.len().min(99)])?,
        target: Text::from_slice(alloc, &target[..target.len().min(99)])?,
        moment: None,
        close: false,
        body: Blob::new(alloc),
    })
}

#[test]
fn a_route_holds_the_part_and_the_query_as_they_stand(rt: HostRuntime) -> Result<(), Fail> {
    let job = route(rt.alloc(), &request(rt.alloc(), b"PUT", b"/jobs/a%61?b")?);
    let job = match &job {
        Ok(Route::JobPut { id }) => id.as_bytes(),
        _ => b"",
    };
    assert_eq!(rt; job, b"a%61".as_slice());
    let files = route(rt.alloc(), &request(rt.alloc(), b"GET", b"/files?a=?")?);
    let query = match &files {
        Ok(Route::Files { query }) => query.as_bytes(),
        _ => b"",
    };
    assert_eq!(rt; query, b"a=?".as_slice());
    Ok(())
}

#[test]
fn other_paths_are_no_resource(rt: HostRuntime) -> Result<(), Fail> {
    let rows: [&[u8]; 7] = [
        b"/jobs/",
        b"/jobs/a/b",
        b"//files",
        b"*",
        b"http://x/files",
        b"/jobs/\xff",
        b"/nowhere",
    ];
    for target in rows {
        let answer = route(rt.alloc(), &request(rt.alloc(), b"GET", target)?);
        assert!(rt; matches!(answer, Err(RouteError::H5)), "at {target:?}");
    }
    Ok(())
}

#[test]
fn other_methods_are_told_those_that_are_taken(rt: HostRuntime) -> Result<(), Fail> {
    let rows: [(&[u8], &[u8], &[u8]); 5] = [
        (b"POST", b"/files", b"GET"),
        (b"get", b"/files/a", b"GET"),
        (b"GET", b"/subscriptions/a", b"PUT, DELETE"),
        (b"PUT", b"/events", b"POST"),
        (b"POST", b"/monitors/a", b"GET, PUT, PATCH, DELETE"),
    ];
    for (method, target, methods) in rows {
        let answer = route(rt.alloc(), &request(rt.alloc(), method, target)?);
        let told = match &answer {
            Err(RouteError::H6 { allow }) => allow.as_bytes(),
            _ => b"",
        };
        assert_eq!(rt; told, methods, "at {target:?}");
    }
    Ok(())
}

// Whether this is the text of a reply at moment 12.
fn is_text(
    alloc: Global,
    status: u16,
    code: Option<Code>,
    head: bool,
    close: bool,
    text: &[u8],
) -> Result<bool, AllocError> {
    let reply = Reply {
        status,
        code,
        line: 65_536,
        allow: Text::from_slice(alloc, b"GET")?,
        body: Blob::from_slice(alloc, b"{}")?,
        head,
    };
    let mut sink = MemSink::new(alloc, 512, &[])?;
    let answer = write_reply(alloc, &mut sink, &reply, 12, close);
    Ok(answer == Ok(()) && sink.written() == text)
}

#[test]
fn a_reply_has_its_fields_in_order(rt: HostRuntime) -> Result<(), Fail> {
    let alloc = rt.alloc();
    let created =
        b"HTTP/1.1 201 Created\r\nContent-Type: application/json\r\nContent-Length: 2\r\nPm-Moment: 12\r\n\r\n{}";
    assert!(rt; is_text(alloc, 201, None, false, false, created)?);
    let deleted = b"HTTP/1.1 204 No Content\r\nPm-Moment: 12\r\nConnection: close\r\n\r\n";
    assert!(rt; is_text(alloc, 204, None, false, true, deleted)?);
    let refused =
        b"HTTP/1.1 405 Method Not Allowed\r\nContent-Type: application/json\r\nContent-Length: 13\r\nAllow: GET\r\nPm-Moment: 12\r\n\r\n{\"code\":\"H6\"}";
    assert!(rt; is_text(alloc, 405, Some(Code::H6), false, false, refused)?);
    let faulty =
        b"HTTP/1.1 422 Unprocessable Entity\r\nContent-Type: application/json\r\nContent-Length: 26\r\nPm-Moment: 12\r\n\r\n{\"code\":\"E1\",\"line\":65536}";
    let headed =
        b"HTTP/1.1 405 Method Not Allowed\r\nContent-Type: application/json\r\nContent-Length: 13\r\nAllow: GET\r\nPm-Moment: 12\r\n\r\n";
    assert!(rt; is_text(alloc, 405, Some(Code::H6), true, false, headed)?);
    assert!(rt; is_text(alloc, 422, Some(Code::E1), false, false, faulty)?);
    Ok(())
}

#[test]
fn a_fault_of_the_sink_leaves_a_prefix_of_the_reply(rt: HostRuntime) -> Result<(), Fail> {
    let mut body = Vec::new(rt.alloc());
    body.resize(600, b'x')?;
    let reply = Reply {
        status: 200,
        code: None,
        line: 0,
        allow: Text::new(rt.alloc()),
        body: Blob::from_vec(body),
        head: false,
    };
    let mut sink = MemSink::new(rt.alloc(), 1024, &[2])?;
    let answer = write_reply(rt.alloc(), &mut sink, &reply, 0, false);
    assert_eq!(rt; answer, Err(ReplyError::WriteFault));
    let head =
        b"HTTP/1.1 200 OK\r\nContent-Type: application/json\r\nContent-Length: 600\r\nPm-Moment: 0\r\n\r\n";
    assert_eq!(rt; sink.written(), head.as_slice());
    Ok(())
}

#[test]
fn a_query_names_each_of_three_at_most_once(rt: HostRuntime) -> Result<(), Fail> {
    let asked = read_query(
        rt.alloc(),
        b"&begin%54ime=1&&endTime=000000000002&fileDataType=Performance",
    );
    let all = Query {
        performance: Some(true),
        begin: Some(1),
        end: Some(2),
    };
    assert_eq!(rt; asked, Ok(all));
    let other = Query {
        performance: Some(false),
        begin: None,
        end: None,
    };
    assert_eq!(rt; read_query(rt.alloc(), b"fileDataType"), Ok(other));
    let refused: [&[u8]; 5] = [
        b"beginTime=1&beginTime=2",
        b"beginTime",
        b"endTime=253402300800",
        b"endTime=0000000000001",
        b"x=1",
    ];
    for query in refused {
        assert_eq!(rt;
            read_query(rt.alloc(), query),
            Err(QueryError::L2),
            "at {query:?}"
        );
    }
    Ok(())
}
