//! The writing of replies.
ghost use Rattle.std.specs.Prelude.{◌≡◌, ◌≢◌, ◌++◌, ℕ, List, length, codes, unwrap_or, Err};
ghost use Rattle.std.specs.Result.{is_err};
ghost use Rattle.http.specs.StatusCode.{reason_phrase};
ghost use Rattle.pm_outside.specs.Causes.{faults_after};
ghost use Rattle.pm_http.specs.Reply.{content_of, status_line, content_fields, body_fields, allow_field, moment_field, close_field, head_text, has_body, body_text, reply_text, Writes};
ghost use Rattle.pm_http.specs.Outgoing.{IsOnWay};

use crate::outgoing::Outgoing;
use crate::refusal::refusal;
use crate::{Reply, ReplyError};
use http::StatusCode;
use itoa::Buffer;
use pm_base::Code;
use pm_outside::Sink;
use std::alloc::Global;

/// Writes a reply: the status with its phrase, Content-Type and Content-Length, with H6 the methods in Allow, the moment in
/// Pm-Moment, where it closes `Connection: close`, and the body. A 204 has neither body nor fields on it. `moment` is in
/// seconds since 1970-01-01 UTC. No reply takes memory: the text goes through 512 bytes on the stack, and what they don't
/// hold is put by itself.
pub fn write_reply<K: Sink>(
    _alloc: Global,
    sink: &mut K,
    reply: &Reply,
    moment: u64,
    close: bool,
) -> Result<(), ReplyError>
    ensures told { K.IsTold → Writes (K.written sink.old) (K.written sink.new) (reply_text reply.now moment close) result }
    ensures no_memory { result ≢ Err ReplyError.Memory }
    ensures counted { K.faults sink.new ≡ faults_after (is_err result) (K.faults sink.old) }
{
    match reply.code {
        Some(code) => {
            let body = refusal(code, reply.line);
            write_with(sink, reply, body.as_slice(), moment, close)
        }
        None => write_with(sink, reply, reply.body.as_bytes(), moment, close),
    }
}

// Writes a reply with this content.
fn write_with<K: Sink>(
    sink: &mut K,
    reply: &Reply,
    content: &[u8],
    moment: u64,
    close: bool,
) -> Result<(), ReplyError>
    requires { content.now ≡ content_of reply.now }
    ensures told { K.IsTold → Writes (K.written sink.old) (K.written sink.new) (reply_text reply.now moment close) result }
    ensures no_memory { result ≢ Err ReplyError.Memory }
    ensures counted { K.faults sink.new ≡ faults_after (is_err result) (K.faults sink.old) }
{
    let mut out = Outgoing::new();
    pass_head(&mut out, sink, reply, content.len(), moment, close);
    pass_body(&mut out, sink, reply, content);
    out.finish(sink)
}

// The lines before the body.
fn pass_head<K: Sink>(
    out: &mut Outgoing,
    sink: &mut K,
    reply: &Reply,
    size: usize,
    moment: u64,
    close: bool,
)
    requires { size ≡ length (content_of reply.now) }
    ensures on { K.IsTold → (start text : List ℕ) → IsOnWay start text (K.written sink.old) out.old → IsOnWay start (text ++ head_text reply.now moment close) (K.written sink.new) out.new }
    ensures counted { (faults : ℕ) → K.faults sink.old ≡ faults_after out.old.failed faults → K.faults sink.new ≡ faults_after out.new.failed faults }
{
    pass_status(out, sink, reply.status);
    pass_content_fields(out, sink, reply.status, size);
    pass_allow(out, sink, reply.code, reply.allow.as_bytes());
    pass_moment(out, sink, moment);
    pass_close(out, sink, close);
    out.pass(sink, b"\r\n");
}

// The status line.
fn pass_status<K: Sink>(out: &mut Outgoing, sink: &mut K, status: u16)
    ensures on { K.IsTold → (start text : List ℕ) → IsOnWay start text (K.written sink.old) out.old → IsOnWay start (text ++ status_line status) (K.written sink.new) out.new }
    ensures counted { (faults : ℕ) → K.faults sink.old ≡ faults_after out.old.failed faults → K.faults sink.new ≡ faults_after out.new.failed faults }
{
    let mut digits = Buffer::new();
    out.pass(sink, b"HTTP/1.1 ");
    out.pass(sink, digits.format(status).as_bytes());
    out.pass_line(sink, b" ", phrase_of(status).as_bytes());
}

// The fields on the body.
fn pass_content_fields<K: Sink>(out: &mut Outgoing, sink: &mut K, status: u16, size: usize)
    ensures on { K.IsTold → (start text : List ℕ) → IsOnWay start text (K.written sink.old) out.old → IsOnWay start (text ++ content_fields status size) (K.written sink.new) out.new }
    ensures counted { (faults : ℕ) → K.faults sink.old ≡ faults_after out.old.failed faults → K.faults sink.new ≡ faults_after out.new.failed faults }
{
    if status == 204 {
        return;
    }
    pass_body_fields(out, sink, size);
}

fn pass_body_fields<K: Sink>(out: &mut Outgoing, sink: &mut K, size: usize)
    ensures on { K.IsTold → (start text : List ℕ) → IsOnWay start text (K.written sink.old) out.old → IsOnWay start (text ++ body_fields size) (K.written sink.new) out.new }
    ensures counted { (faults : ℕ) → K.faults sink.old ≡ faults_after out.old.failed faults → K.faults sink.new ≡ faults_after out.new.failed faults }
{
    let mut digits = Buffer::new();
    let name = b"Content-Type: application/json\r\nContent-Length: ";
    out.pass_line(sink, name, digits.format(size).as_bytes());
}

// The Allow field, where the code has one.
fn pass_allow<K: Sink>(out: &mut Outgoing, sink: &mut K, code: Option<Code>, allow: &[u8])
    ensures on { K.IsTold → (start text : List ℕ) → IsOnWay start text (K.written sink.old) out.old → IsOnWay start (text ++ allow_field code allow.now) (K.written sink.new) out.new }
    ensures counted { (faults : ℕ) → K.faults sink.old ≡ faults_after out.old.failed faults → K.faults sink.new ≡ faults_after out.new.failed faults }
{
    if let Some(Code::H6) = code {
        out.pass_line(sink, b"Allow: ", allow);
    }
}

// The moment's field.
fn pass_moment<K: Sink>(out: &mut Outgoing, sink: &mut K, moment: u64)
    ensures on { K.IsTold → (start text : List ℕ) → IsOnWay start text (K.written sink.old) out.old → IsOnWay start (text ++ moment_field moment) (K.written sink.new) out.new }
    ensures counted { (faults : ℕ) → K.faults sink.old ≡ faults_after out.old.failed faults → K.faults sink.new ≡ faults_after out.new.failed faults }
{
    let mut digits = Buffer::new();
    out.pass_line(sink, b"Pm-Moment: ", digits.format(moment).as_bytes());
}

// The field that closes, where the connection is closed.
fn pass_close<K: Sink>(out: &mut Outgoing, sink: &mut K, close: bool)
    ensures on { K.IsTold → (start text : List ℕ) → IsOnWay start text (K.written sink.old) out.old → IsOnWay start (text ++ close_field close) (K.written sink.new) out.new }
    ensures counted { (faults : ℕ) → K.faults sink.old ≡ faults_after out.old.failed faults → K.faults sink.new ≡ faults_after out.new.failed faults }
{
    if close {
        out.pass(sink, b"Connection: close\r\n");
    }
}

// The body, where it is written.
fn pass_body<K: Sink>(out: &mut Outgoing, sink: &mut K, reply: &Reply, content: &[u8])
    requires { content.now ≡ content_of reply.now }
    ensures on { K.IsTold → (start text : List ℕ) → IsOnWay start text (K.written sink.old) out.old → IsOnWay start (text ++ body_text reply.now) (K.written sink.new) out.new }
    ensures counted { (faults : ℕ) → K.faults sink.old ≡ faults_after out.old.failed faults → K.faults sink.new ≡ faults_after out.new.failed faults }
{
    if is_body_written(reply) {
        out.pass(sink, content);
    }
}

fn is_body_written(reply: &Reply) -> bool
    ensures { result ≡ has_body reply.now }
{
    reply.status != 204 && !reply.head
}

// The phrase of a status, where it has one.
fn phrase_of(status: u16) -> &'static str
    ensures { result.now ≡ unwrap_or (reason_phrase status) (codes "") }
{
    match StatusCode::from_u16(status) {
        Ok(status) => status.canonical_reason().unwrap_or(""),
        Err(_) => "",
    }
}
