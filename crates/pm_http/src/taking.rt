//! Bytes taken into the rest of a buffer.
ghost use Rattle.std.specs.Prelude.{◌≡◌, ◌≤◌, ◌<◌, ◌+◌, ◌++◌, [], Ok, Err, length, vec_len, take, slice_range, IfOk, OnErr, MatchResult};
ghost use Rattle.pm_outside.specs.Causes.{faults_after};
ghost use Rattle.pm_outside.specs.Feed.{left_to, KnowsEnd, ReadsOn, is_failed};
ghost use Rattle.pm_outside.specs.declared.feed.TheConstants.{MOST_READ};

use pm_outside::{Feed, FeedError, Source};

/// Takes the first bytes that are left into the buffer after its first `at` bytes.
pub fn take_after<S: Source>(
    feed: &mut Feed,
    source: &mut S,
    buffer: &mut Vec<u8>,
    at: usize,
) -> Result<usize, FeedError>
    requires knows_end { S.IsTold → KnowsEnd feed.old (S.left source.old) }
    requires within { at ≤ vec_len buffer.old }
    ensures bound { IfOk result (λ n. at + n ≤ vec_len buffer.old) }
    ensures room { vec_len buffer.new ≡ vec_len buffer.old }
    ensures front { take at buffer.new.items ≡ take at buffer.old.items }
    ensures told { S.IsTold → MatchResult result (λ n. (left_to feed.old (S.left source.old) ≡ slice_range buffer.new.items at (at + n) ++ left_to feed.new (S.left source.new)) × (n ≡ 0 → at < vec_len buffer.old → left_to feed.old (S.left source.old) ≡ [])) (λ _. left_to feed.new (S.left source.new) ≡ left_to feed.old (S.left source.old)) }
    ensures reads { ReadsOn S.IsTold feed.old feed.new (S.left source.old) (S.left source.new) }
    ensures end { result ≡ Ok 0 → at < vec_len buffer.old → feed.old.given < MOST_READ }
    ensures limit { result ≡ Err FeedError.Limit → feed.old.given ≡ MOST_READ }
    ensures wanted { OnErr result (feed.old.buffered ≡ []) }
    ensures emptied { OnErr result (feed.new.buffered ≡ []) }
    ensures counted { S.faults source.new ≡ faults_after (is_failed result) (S.faults source.old) }
{
    feed.take(source, &mut buffer[at..])
}
