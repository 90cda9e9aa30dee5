//! The length of a body.
ghost use Rattle.std.specs.Prelude.{◌≡◌, codes, map, length, if◌then◌else◌};
ghost use Rattle.std.specs.List.{All};
ghost use Rattle.httparse.specs.Spans.{IsHeaderWithin, header_bytes};
ghost use Rattle.pm_base.specs.Number.{is_number, number_of};
ghost use Rattle.pm_http.specs.Head.{needs_length, size_within, size_by, size_of, values_of, IsWithinLimit};

use crate::fields::{Values, values_named};
use httparse::spans::HeaderSpan;
use pm_base::{Code, read_number};

/// What a head says of the length of its body.
#[derive(Clone, Copy, Debug, PartialEq, Eq)]
pub enum BodySize {
    Refused(Code),
    Bytes(u64),
}

// The most bytes of a body.
const MOST_BODY: u64 = 16_777_216;

/// The length of the body by the method and the fields, or the first rule that they break.
pub fn read_size(buf: &[u8], method: &[u8], fields: &[HeaderSpan]) -> BodySize
    requires { All (IsHeaderWithin (length buf.now)) fields.now }
    ensures size { result ≡ size_of method.now (map (header_bytes buf.now) fields.now) }
    ensures limit { IsWithinLimit result }
{
    match values_named(buf, fields, b"transfer-encoding") {
        Values::None => length_by(buf, fields, is_length_needed(method)),
        Values::One(_) | Values::More(_) => BodySize::Refused(Code::H4),
    }
}

// The length by the Content-Length fields.
fn length_by(buf: &[u8], fields: &[HeaderSpan], needed: bool) -> BodySize
    requires { All (IsHeaderWithin (length buf.now)) fields.now }
    ensures size { result ≡ size_by needed (values_of (codes "content-length") (map (header_bytes buf.now) fields.now)) }
    ensures limit { IsWithinLimit result }
{
    match values_named(buf, fields, b"content-length") {
        Values::None if needed => BodySize::Refused(Code::H7),
        Values::None => BodySize::Bytes(0),
        Values::One(value) => length_of(value.of(buf)),
        Values::More(_) => BodySize::Refused(Code::H7),
    }
}

// The length that one value tells.
fn length_of(value: &[u8]) -> BodySize
    ensures size { result ≡ (if is_number 12 value.now then size_within (number_of value.now) else BodySize.Refused Code.H7) }
    ensures limit { IsWithinLimit result }
{
    match read_number(value, 12) {
        None => BodySize::Refused(Code::H7),
        Some(size) if size <= MOST_BODY => BodySize::Bytes(size),
        Some(_) => BodySize::Refused(Code::H3),
    }
}

// Whether a request of this method has to tell the length of its body.
fn is_length_needed(method: &[u8]) -> bool
    ensures { result ≡ needs_length method.now }
{
    method == b"PUT".as_slice() || method == b"PATCH".as_slice() || method == b"POST".as_slice()
}
