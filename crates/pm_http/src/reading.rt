//! The reading of requests.
ghost use Rattle.std.specs.Prelude.{◌≡◌, ◌≤◌, ◌+◌, [], ℕ, List, Err, length, map, IfOk, IfErr};
ghost use Rattle.std.specs.List.{All};
ghost use Rattle.httparse.specs.Grammar.{RequestHead};
ghost use Rattle.httparse.specs.Spans.{IsRequestAt, IsHeaderWithin, header_bytes};
ghost use Rattle.pm_outside.specs.Causes.{faults_after};
ghost use Rattle.pm_outside.specs.Feed.{left_to, KnowsEnd, MOST_AHEAD, ReadsOn};
ghost use Rattle.pm_outside.specs.declared.feed.TheConstants.{MOST_READ};
ghost use Rattle.pm_http.specs.Head.{body_size, first_of, values_of, IsWithinLimit};
ghost use Rattle.pm_http.specs.Stream.{MOST_HEAD, StopsAtFault, StopsForMemory, is_read_fault, StopsAtLimit, MayBeTold, readable, IsNext, IsPlaced, IsSmall, IsOf};
ghost use Rattle.pm_http.specs.Piece.{IsGathered, IsParsed, StopsAfterHead};

use crate::body::{body_room, fill};
use crate::connection::is_closing;
use crate::fields::{Values, values_named};
use crate::head_end::{HeadEnd, read_head};
use crate::sight::field_room;
use crate::size::{BodySize, read_size};
use crate::{HttpError, Next, Request};
use httparse::spans::{HeaderSpan, RequestSpans};
use pm_base::{Blob, Code, Text};
use pm_outside::{Feed, Source};
use std::alloc::{AllocError, Global};

// The room that a head begins with, in bytes; a longer one takes more.
const USUAL_HEAD: usize = 4096;

/// Reads the next request of a stream (RFC 9112): a head of at most 16,384 bytes and 64 fields, and a body of at most
/// 16,777,216 bytes. `offset` in the answer is that of its first byte, counted in bytes from the first that the feed gave.
/// `ReadFault` comes where the source failed inside it, `Limit` where as many bytes as a feed takes end inside it, and
/// `Memory` where there is none, and what was taken breaks no rule. After an error, a framing refusal or a cut, bytes may
/// have been taken, and the feed is of no more use.
pub fn next_request<S: Source>(
    alloc: Global,
    feed: &mut Feed,
    source: &mut S,
) -> Result<Next, HttpError>
    requires { S.IsTold → KnowsEnd feed.old (S.left source.old) }
    ensures next { S.IsTold → IfOk result (λ next. IsNext (left_to feed.old (S.left source.old)) feed.old.given next (left_to feed.new (S.left source.new))) }
    ensures placed { IfOk result (IsPlaced feed.old.given) }
    ensures small { IfOk result IsSmall }
    ensures reads { ReadsOn S.IsTold feed.old feed.new (S.left source.old) (S.left source.new) }

    // The limit comes exactly where it is met, but for the choice that is left open.
    ensures limit { S.IsTold → result ≡ Err HttpError.Limit → StopsAtLimit feed.old.given (left_to feed.old (S.left source.old)) }
    ensures within { S.IsTold → IfOk result (λ next. StopsAtLimit feed.old.given (left_to feed.old (S.left source.old)) → MayBeTold (readable feed.old.given (left_to feed.old (S.left source.old))) next) }

    // What was taken at a fault, which is all that came, and out of memory.
    ensures fault { S.IsTold → result ≡ Err HttpError.ReadFault → StopsAtFault (left_to feed.old (S.left source.old)) (left_to feed.new (S.left source.new)) }
    ensures memory { S.IsTold → result ≡ Err HttpError.Memory → StopsForMemory (left_to feed.old (S.left source.old)) (left_to feed.new (S.left source.new)) }
    ensures emptied { result ≡ Err HttpError.ReadFault → feed.new.buffered ≡ [] }
    ensures counted { S.faults source.new ≡ faults_after (is_read_fault result) (S.faults source.old) }
{
    let offset = feed.given();
    take_nothing(feed, source);
    read_request(alloc, feed, source, offset)
}

// Takes no byte: a feed tells at each call that what was taken of it is within its limit.
fn take_nothing<S: Source>(feed: &mut Feed, source: &mut S)
    requires { S.IsTold → KnowsEnd feed.old (S.left source.old) }
    ensures stays { S.IsTold → left_to feed.new (S.left source.new) ≡ left_to feed.old (S.left source.old) }
    ensures given { S.IsTold → feed.new.given ≡ feed.old.given }
    ensures reads { ReadsOn S.IsTold feed.old feed.new (S.left source.old) (S.left source.new) }
    ensures counted { S.faults source.new ≡ S.faults source.old }
{
    let _none = feed.take(source, &mut []);
}

// Reads the next request, where the feed is within its limit.
fn read_request<S: Source>(
    alloc: Global,
    feed: &mut Feed,
    source: &mut S,
    offset: u64,
) -> Result<Next, HttpError>
    requires within { feed.old.given ≤ MOST_READ }
    requires ahead { length feed.old.buffered ≤ MOST_AHEAD }
    requires begins { S.IsTold → offset ≡ feed.old.given }
    requires knows_end { S.IsTold → KnowsEnd feed.old (S.left source.old) }
    ensures next { S.IsTold → IfOk result (λ next. IsNext (left_to feed.old (S.left source.old)) offset next (left_to feed.new (S.left source.new))) }
    ensures placed { IfOk result (IsPlaced offset) }
    ensures small { IfOk result IsSmall }
    ensures reads { ReadsOn S.IsTold feed.old feed.new (S.left source.old) (S.left source.new) }
    ensures limit { S.IsTold → result ≡ Err HttpError.Limit → StopsAtLimit offset (left_to feed.old (S.left source.old)) }
    ensures within { S.IsTold → IfOk result (λ next. StopsAtLimit offset (left_to feed.old (S.left source.old)) → MayBeTold (readable offset (left_to feed.old (S.left source.old))) next) }
    ensures fault { S.IsTold → result ≡ Err HttpError.ReadFault → StopsAtFault (left_to feed.old (S.left source.old)) (left_to feed.new (S.left source.new)) }
    ensures memory { S.IsTold → result ≡ Err HttpError.Memory → StopsForMemory (left_to feed.old (S.left source.old)) (left_to feed.new (S.left source.new)) }
    ensures emptied { result ≡ Err HttpError.ReadFault → feed.new.buffered ≡ [] }
    ensures counted { S.faults source.new ≡ faults_after (is_read_fault result) (S.faults source.old) }
{
    let Ok(mut fields) = field_room(alloc) else {
        return Err(HttpError::Memory);
    };
    let Ok(mut head) = Vec::with_capacity(alloc, USUAL_HEAD) else {
        return Err(HttpError::Memory);
    };
    match read_head(feed, source, &mut head, &mut fields)? {
        HeadEnd::Whole(spans) => { read_rest(alloc, feed, source, &head, &fields, spans, offset) }
        HeadEnd::Crowded | HeadEnd::Long => Ok(Next::Framing {
            code: Code::H2,
            offset,
        }),
        HeadEnd::Never => Ok(Next::Framing {
            code: Code::H1,
            offset,
        }),
        HeadEnd::Short => Ok(Next::CutShort { offset }),
        HeadEnd::Nothing => Ok(Next::End),
        HeadEnd::Limit => Err(HttpError::Limit),
    }
}

// Reads what follows a whole head.
fn read_rest<S: Source>(
    alloc: Global,
    feed: &mut Feed,
    source: &mut S,
    head: &[u8],
    fields: &[HeaderSpan],
    spans: RequestSpans,
    offset: u64,
) -> Result<Next, HttpError>
    requires knows_end { S.IsTold → KnowsEnd feed.old (S.left source.old) }
    requires within { feed.old.given ≤ MOST_READ }
    requires ahead { length feed.old.buffered ≤ MOST_AHEAD }
    requires parsed { IsParsed head.now fields.now spans }
    ensures next { S.IsTold → (all : List ℕ) → IsGathered all head.now (left_to feed.old (S.left source.old)) fields.now spans → IfOk result (λ next. IsNext all offset next (left_to feed.new (S.left source.new))) }
    ensures placed { IfOk result (IsPlaced offset) }
    ensures small { IfOk result IsSmall }
    ensures reads { ReadsOn S.IsTold feed.old feed.new (S.left source.old) (S.left source.new) }
    ensures limit { S.IsTold → (all : List ℕ) → IsGathered all head.now (left_to feed.old (S.left source.old)) fields.now spans → feed.old.given + length (left_to feed.old (S.left source.old)) ≡ offset + length all → result ≡ Err HttpError.Limit → StopsAtLimit offset all }
    ensures within { S.IsTold → (all : List ℕ) → IsGathered all head.now (left_to feed.old (S.left source.old)) fields.now spans → feed.old.given + length (left_to feed.old (S.left source.old)) ≡ offset + length all → IfOk result (λ next. StopsAtLimit offset all → MayBeTold (readable offset all) next) }
    ensures stops { S.IsTold → (all : List ℕ) → IsGathered all head.now (left_to feed.old (S.left source.old)) fields.now spans → IfErr result (StopsAfterHead all (left_to feed.new (S.left source.new))) }
    ensures emptied { result ≡ Err HttpError.ReadFault → feed.new.buffered ≡ [] }
    ensures counted { S.faults source.new ≡ faults_after (is_read_fault result) (S.faults source.old) }
{
    match size_by_head(head, fields, spans) {
        BodySize::Refused(code) => Ok(Next::Framing { code, offset }),
        BodySize::Bytes(size) => {
            let Ok(mut body) = body_room(alloc, size as usize) else {
                return Err(HttpError::Memory);
            };
            if !fill(feed, source, &mut body)? {
                return Ok(Next::CutShort { offset });
            }
            match request_of(alloc, head, fields, spans, body) {
                Ok(request) => Ok(Next::Request(request)),
                Err(_) => Err(HttpError::Memory),
            }
        }
    }
}

// The length of the body, by a head of at most 64 fields.
fn size_by_head(head: &[u8], fields: &[HeaderSpan], spans: RequestSpans) -> BodySize
    requires { IsParsed head.now fields.now spans }
    ensures size { (h : RequestHead) → IsRequestAt head.now fields.now spans h → result ≡ body_size h }
    ensures limit { IsWithinLimit result }
{
    read_size(head, spans.method.of(head), &fields[..spans.headers])
}

// The request of a head and a body.
fn request_of(
    alloc: Global,
    head: &[u8],
    fields: &[HeaderSpan],
    spans: RequestSpans,
    body: Vec<u8>,
) -> Result<Request, AllocError>
    requires { IsParsed head.now fields.now spans }
    ensures head { (h : RequestHead) → IsRequestAt head.now fields.now spans h → IfOk result (IsOf h) }
    ensures body { IfOk result (λ request. request.body ≡ body.items) }
{
    let fields = &fields[..spans.headers];
    Ok(Request {
        method: Text::from_slice(alloc, spans.method.of(head))?,
        target: Text::from_slice(alloc, spans.path.of(head))?,
        moment: first_value(alloc, head, fields, b"pm-moment")?,
        close: is_closing(head, spans.version, fields),
        body: Blob::from_vec(body),
    })
}

// The value of the first field of this name.
fn first_value(
    alloc: Global,
    head: &[u8],
    fields: &[HeaderSpan],
    name: &[u8],
) -> Result<Option<Text>, AllocError>
    requires within { All (IsHeaderWithin (length head.now)) fields.now }
    requires short { All (IsHeaderWithin MOST_HEAD) fields.now }
    ensures { IfOk result (λ value. value ≡ first_of (values_of name.now (map (header_bytes head.now) fields.now))) }
{
    match values_named(head, fields, name) {
        Values::None => Ok(None),
        Values::One(value) | Values::More(value) => Ok(Some(Text::from_slice(
            alloc,
            value.of(head),
        )?)),
    }
}
