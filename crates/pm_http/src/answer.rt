//! The reading of a reply.
ghost use Rattle.std.specs.Prelude.{◌≡◌, ◌≤◌, Ok, Err, Some, None, ℕ, List, codes, map, take, drop, length, if◌then◌else◌, IfOk};
ghost use Rattle.std.specs.List.{All};
ghost use Rattle.httparse.specs.Grammar.{ResponseHead, status_code};
ghost use Rattle.httparse.specs.Spans.{IsHeaderWithin, IsResponseWithin, IsResponseAt, header_bytes};
ghost use Rattle.pm_base.specs.Number.{is_number, number_of};
ghost use Rattle.pm_http.specs.Head.{values_of};
ghost use Rattle.pm_http.specs.Answer.{length_by, length_told, IsAnswer, IsNoAnswer};

use crate::AnswerError;
use crate::fields::{Values, values_named};
use httparse::Status;
use httparse::spans::{EMPTY_HEADER_SPAN, HeaderSpan, ResponseSpans, parse_response};
use pm_base::{Blob, read_number};
use std::alloc::Global;

/// A reply that was read.
#[derive(Debug, Drop)]
pub struct Answer {
    /// A number of three digits.
    pub status: u16,
    pub body: Blob,
}

/// Reads a reply, which all the bytes are: a head of at most 64 fields, one of which is Content-Length with 1 to 12 digits, and a
/// body of that length. `X1` where they aren't, and `Memory` where they are and there is none for the body.
pub fn read_answer(alloc: Global, bytes: &[u8]) -> Result<Answer, AnswerError>
    ensures answer { IfOk result (λ answer. IsAnswer bytes.now answer.status answer.body) }
    ensures refused { result ≡ Err AnswerError.X1 → IsNoAnswer bytes.now }
    ensures memory { result ≡ Err AnswerError.Memory → (status : ℕ) × (body : List ℕ) × IsAnswer bytes.now status body }
{
    let mut fields = [EMPTY_HEADER_SPAN; 64];
    match parse_response(bytes, &mut fields) {
        Ok(Status::Complete(spans)) => answer_of(alloc, bytes, &fields, spans),
        _ => Err(AnswerError::X1),
    }
}

// The reply that has its head at these places.
fn answer_of(
    alloc: Global,
    bytes: &[u8],
    fields: &[HeaderSpan],
    spans: ResponseSpans,
) -> Result<Answer, AnswerError>
    requires within { IsResponseWithin bytes.now fields.now spans }
    ensures answer { (h : ResponseHead) → IsResponseAt bytes.now fields.now spans h → IfOk result (λ answer. (length_told h ≡ Some (length answer.body)) × (answer.body ≡ drop spans.len bytes.now) × (answer.status ≡ status_code h)) }
    ensures refused { (h : ResponseHead) → IsResponseAt bytes.now fields.now spans h → result ≡ Err AnswerError.X1 → length_told h ≡ Some (length (drop spans.len bytes.now)) → ⊥ }
    ensures memory { (h : ResponseHead) → IsResponseAt bytes.now fields.now spans h → result ≡ Err AnswerError.Memory → length_told h ≡ Some (length (drop spans.len bytes.now)) }
{
    let body = &bytes[spans.len..];
    match length_in(bytes, &fields[..spans.headers]) {
        Some(size) if size == body.len() as u64 => copied(alloc, spans.code, body),
        _ => Err(AnswerError::X1),
    }
}

fn copied(alloc: Global, status: u16, body: &[u8]) -> Result<Answer, AnswerError>
    ensures answer { IfOk result (λ answer. (answer.status ≡ status) × (answer.body ≡ body.now)) }
    ensures refused { result ≡ Err AnswerError.X1 → ⊥ }
{
    match Blob::from_slice(alloc, body) {
        Ok(body) => Ok(Answer { status, body }),
        Err(_) => Err(AnswerError::Memory),
    }
}

// The length that the Content-Length fields tell.
fn length_in(buf: &[u8], fields: &[HeaderSpan]) -> Option<u64>
    requires { All (IsHeaderWithin (length buf.now)) fields.now }
    ensures { result ≡ length_by (values_of (codes "content-length") (map (header_bytes buf.now) fields.now)) }
{
    match values_named(buf, fields, b"content-length") {
        Values::None => None,
        Values::One(value) => length_of(value.of(buf)),
        Values::More(_) => None,
    }
}

// The length that one value tells.
fn length_of(value: &[u8]) -> Option<u64>
    ensures { result ≡ (if is_number 12 value.now then Some (number_of value.now) else None) }
{
    read_number(value, 12)
}
