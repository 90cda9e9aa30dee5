//! The reading of a body.
ghost use Rattle.std.specs.Prelude.{◌≡◌, ◌≢◌, ◌≤◌, ◌+◌, ◌<◌, false, Ok, Err, length, vec_len, [], IfOk, OnErr};
ghost use Rattle.pm_outside.specs.Causes.{faults_after};
ghost use Rattle.pm_outside.specs.Feed.{left_to, KnowsEnd, MOST_AHEAD, ReadsOn};
ghost use Rattle.pm_outside.specs.declared.feed.TheConstants.{MOST_READ};
ghost use Rattle.pm_http.specs.Stream.{is_read_fault};
ghost use Rattle.pm_http.specs.Piece.{BodyStops, Fills, FailsInBody};

use crate::HttpError;
use crate::taking::take_after;
use pm_outside::{Feed, FeedError, Source};
use std::alloc::{AllocError, Global};

/// Room for a body of so many bytes.
pub fn body_room(alloc: Global, size: usize) -> Result<Vec<u8>, AllocError>
    ensures { IfOk result (λ room. vec_len room ≡ size) }
{
    vec![in alloc; 0u8; size]
}

/// Takes the bytes of a body, and answers whether all of them were left.
pub fn fill<S: Source>(
    feed: &mut Feed,
    source: &mut S,
    body: &mut Vec<u8>,
) -> Result<bool, HttpError>
    requires within { feed.old.given ≤ MOST_READ }
    requires ahead { length feed.old.buffered ≤ MOST_AHEAD }
    requires knows_end { S.IsTold → KnowsEnd feed.old (S.left source.old) }
    ensures fills { S.IsTold → IfOk result (Fills (left_to feed.old (S.left source.old)) (left_to feed.new (S.left source.new)) body.new.items) }
    ensures room { vec_len body.new ≡ vec_len body.old }
    ensures reads { ReadsOn S.IsTold feed.old feed.new (S.left source.old) (S.left source.new) }
    ensures cut { S.IsTold → result ≡ Ok false → feed.new.given < MOST_READ }
    ensures limit { S.IsTold → result ≡ Err HttpError.Limit → BodyStops feed.old.given (left_to feed.old (S.left source.old)) (vec_len body.old) }
    ensures fault { S.IsTold → result ≡ Err HttpError.ReadFault → FailsInBody (left_to feed.old (S.left source.old)) (left_to feed.new (S.left source.new)) (vec_len body.old) }
    ensures emptied { OnErr result (feed.new.buffered ≡ []) }
    ensures no_memory { result ≢ Err HttpError.Memory }
    ensures counted { S.faults source.new ≡ faults_after (is_read_fault result) (S.faults source.old) }
{
    let mut at = 0;
    'bytes: while at < body.len() {
        match take_after(feed, source, body, at) {
            Ok(0) => return Ok(false),
            Ok(count) => at += count,
            Err(FeedError::Failed) => return Err(HttpError::ReadFault),
            Err(FeedError::Limit) => return Err(HttpError::Limit),
        }
    }
    Ok(true)
}
