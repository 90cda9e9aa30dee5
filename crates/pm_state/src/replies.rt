//! Replies.
ghost use Rattle.std.specs.Prelude.{◌≡◌, IfOk};
ghost use Rattle.pm_state.specs.Given as given;
ghost use Rattle.pm_state.specs.Status as status;
ghost use Rattle.pm_state.specs.Step.{accepted_body};

use itoa::Buffer;
use pm_base::{Blob, Code, Text};
use pm_http::Reply;
use std::alloc::{AllocError, Global};

/// The status of the reply that tells a refusal.
pub fn status_of(code: Code) -> u16
    ensures { result ≡ status.status_of code }
{
    match code {
        Code::H1 | Code::H7 | Code::H8 | Code::J1 | Code::L2 | Code::P3 => 400,
        Code::H5 | Code::J10 | Code::L1 | Code::P2 => 404,
        Code::H6 => 405,
        Code::J2 | Code::J8 | Code::J9 | Code::J12 | Code::P1 | Code::P4 => 409,
        Code::H3 => 413,
        Code::J3 | Code::J4 | Code::J5 | Code::J6 | Code::J7 | Code::J11 => 422,
        Code::E1 | Code::E2 | Code::E3 => 422,
        Code::E4 => 429,
        Code::H2 => 431,
        Code::H4 => 501,
        Code::MEM => 503,
        _ => 500,
    }
}

/// A reply with a body. It takes no memory.
pub fn ok(alloc: Global, status: u16, body: Blob) -> Reply
    ensures { result ≡ given.ok status body }
{
    Reply {
        status,
        code: None,
        line: 0,
        allow: Text::new(alloc),
        body,
        head: false,
    }
}

/// A refusal, at a line of a batch of events; else at line 0. It takes no memory.
pub fn refused_at(alloc: Global, code: Code, line: u32) -> Reply
    ensures { result ≡ given.refused_at code line }
{
    Reply {
        status: status_of(code),
        code: Some(code),
        line,
        allow: Text::new(alloc),
        body: Blob::new(alloc),
        head: false,
    }
}

/// A refusal.
pub fn refused(alloc: Global, code: Code) -> Reply
    ensures { result ≡ given.refused code }
{
    refused_at(alloc, code, 0)
}

/// The reply that there is no memory.
pub fn no_memory(alloc: Global) -> Reply
    ensures { result ≡ given.no_memory }
{
    refused(alloc, Code::MEM)
}

/// The reply that so many lines were accepted.
pub fn accepted(alloc: Global, lines: u32) -> Result<Reply, AllocError>
    ensures { IfOk result (λ reply. reply ≡ given.ok 202 (accepted_body lines)) }
{
    let mut body = Vec::new(alloc);
    let mut digits = Buffer::new();
    body.extend_from_slice(b"{\"accepted\":")?;
    body.extend_from_slice(digits.format(lines).as_bytes())?;
    body.push(b'}')?;
    Ok(ok(alloc, 202, Blob::from_vec(body)))
}
