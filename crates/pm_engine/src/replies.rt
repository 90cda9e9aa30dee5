//! Replies to requests.
ghost use Rattle.std.specs.Prelude.{◌≡◌, ◌≢◌, MatchOption};
ghost use Rattle.pm_http.specs.declared.reply.Reply.{Reply};
ghost use Rattle.pm_state.specs.Given.{no_memory};
ghost use Rattle.pm_state.specs.Step as step;
ghost use Rattle.pm_engine.specs.Turn.{reply_to};

use pm_base::{Code, Text};
use pm_http::{Reply, Request};
use pm_state::{no_memory as no_memory_reply, refused};
use std::alloc::Global;

/// A reply, but for one that there is no memory.
pub fn unless_no_memory(reply: Reply) -> Option<Reply>
    ensures { MatchOption result (reply.status ≡ 503) (λ other. (other ≡ reply) × (reply.status ≢ 503)) }
{
    if reply.status == 503 {
        return None;
    }
    Some(reply)
}

/// The refusal of a method, with those that are allowed.
pub fn not_allowed(alloc: Global, allow: Text) -> Reply
    ensures { result ≡ (step.not_allowed allow).reply }
{
    let mut reply = refused(alloc, Code::H6);
    reply.allow = allow;
    reply
}

fn to_head(request: &Request, mut reply: Reply) -> Reply
    ensures { result ≡ reply_to request.now reply }
{
    reply.head = request.method.as_bytes() == b"HEAD".as_slice();
    reply
}

/// The reply to a request; none means that there is no memory.
pub fn finished(alloc: Global, request: &Request, reply: Option<Reply>) -> Reply
    ensures { MatchOption reply (result ≡ reply_to request.now no_memory) (λ given. result ≡ reply_to request.now given) }
{
    match reply {
        Some(reply) => to_head(request, reply),
        None => to_head(request, no_memory_reply(alloc)),
    }
}
