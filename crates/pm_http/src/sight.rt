//! What some bytes show of the head at their start.
ghost use Rattle.std.specs.Prelude.{◌≡◌, ◌≤◌, length, IfOk};
ghost use Rattle.httparse.specs.Spans.{RequestOverflows};
ghost use Rattle.pm_http.specs.Stream.{MOST_HEAD};
ghost use Rattle.pm_http.specs.Piece.{IsSight, IsCrowded};

use httparse::spans::{EMPTY_HEADER_SPAN, HeaderSpan, RequestSpans, parse_request};
use httparse::{Error, Status};
use std::alloc::{AllocError, Global};

/// What some bytes show of the head at their start.
#[derive(Clone, Copy)]
pub enum Sight {
    /// A whole head of at most 64 fields.
    Whole(RequestSpans),
    /// A whole head of more fields.
    Crowded,
    /// No whole head.
    More,
    /// No whole head, whatever follows.
    Never,
}

// The most fields of a request, and more than 16,384 bytes can hold.
const MOST_FIELDS: usize = 64;

const ALL_FIELDS: usize = 8192;

/// Room for the fields of a request.
pub fn field_room(alloc: Global) -> Result<Vec<HeaderSpan>, AllocError>
    ensures { IfOk result (λ room. length room.items ≡ 64) }
{
    vec![in alloc; EMPTY_HEADER_SPAN; MOST_FIELDS]
}

/// What some bytes show, with the fields of the head in `fields`.
pub fn look(bytes: &[u8], fields: &mut [HeaderSpan]) -> Sight
    requires room { length fields.old ≡ 64 }
    requires few { length bytes.now ≤ MOST_HEAD }
    ensures { IsSight bytes.now fields.new result }
{
    match parse_request(bytes, fields) {
        Ok(Status::Complete(spans)) => Sight::Whole(spans),
        Ok(Status::Partial) => Sight::More,
        Err(Error::TooManyHeaders) => look_crowded::<ALL_FIELDS>(bytes),
        Err(_) => Sight::Never,
    }
}

// What some bytes show whose every head has more than 64 fields. The room is on the stack, so no memory is taken.
#[cold]
#[inline(never)]
fn look_crowded<const N: usize>(bytes: &[u8]) -> Sight
    requires room { N ≡ 8192 }
    requires few { length bytes.now ≤ MOST_HEAD }
    requires crowded { RequestOverflows 64 bytes.now }
    ensures { IsCrowded bytes.now result }
{
    let mut fields = [EMPTY_HEADER_SPAN; N];
    look_with(bytes, &mut fields)
}

// The same, with room for all fields.
fn look_with(bytes: &[u8], fields: &mut [HeaderSpan]) -> Sight
    requires room { length fields.old ≡ 8192 }
    requires few { length bytes.now ≤ MOST_HEAD }
    requires crowded { RequestOverflows 64 bytes.now }
    ensures { IsCrowded bytes.now result }
{
    match parse_request(bytes, fields) {
        Ok(Status::Complete(_)) => Sight::Crowded,
        Ok(Status::Partial) => Sight::More,
        Err(Error::TooManyHeaders) => Sight::More,
        Err(_) => Sight::Never,
    }
}
