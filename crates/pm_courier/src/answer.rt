//! What a consumer answered.
ghost use Rattle.std.specs.Prelude.{◌≡◌, ◌↔◌, ◌≤◌, length};
ghost use Rattle.httparse.specs.Grammar.{MayBecomeResponse};
ghost use Rattle.pm_courier.specs.Reply.{TakesNotice};

use httparse::Status;
use httparse::spans::{EMPTY_HEADER_SPAN, parse_response};

/// The most bytes of a reply's head that are read.
pub(crate) const HEAD_BYTES: usize = 16_384;

/// What is known of a reply by its first bytes.
#[derive(Clone, Copy, Debug, PartialEq, Eq)]
pub(crate) enum Answer {
    /// Its head isn't whole yet.
    Open,
    /// It was taken: its status is 200 to 299.
    Taken,
    /// It was refused, or is no reply.
    Refused,
}

/// What the first bytes of a reply say.
pub(crate) fn answer_of(bytes: &[u8]) -> Answer
    ensures taken { (result ≡ Answer.Taken) ↔ TakesNotice bytes.now }

    // It waits only where more bytes can complete a head.
    ensures waits { result ≡ Answer.Open → MayBecomeResponse bytes.now }
{
    let mut headers = [EMPTY_HEADER_SPAN; 64];
    match parse_response(bytes, &mut headers) {
        Ok(Status::Complete(head)) if 200 <= head.code && head.code <= 299 => Answer::Taken,
        Ok(Status::Partial) => Answer::Open,
        _ => Answer::Refused,
    }
}
