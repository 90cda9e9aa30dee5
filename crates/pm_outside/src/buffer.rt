//! The moves within the buffer of a feed.
ghost use Rattle.std.specs.Prelude.{◌≡◌, ◌+◌, ◌-◌, ◌<◌, ◌≤◌, ◌++◌, [], vec_len, take, slice_range, IfOk, MatchResult};
ghost use Rattle.std.specs.Result.{is_err};
ghost use Rattle.pm_outside.specs.Causes.{faults_after};

use crate::{Failed, Source};

/// Moves the bytes from `start` to `end` to the front.
pub fn move_to_front(buffer: &mut Vec<u8>, start: usize, end: usize)
    requires ordered { start ≤ end }
    requires within { end ≤ vec_len buffer.old }
    ensures moved { slice_range buffer.new.items 0 (end - start) ≡ slice_range buffer.old.items start end }
    ensures room { vec_len buffer.new ≡ vec_len buffer.old }
{
    buffer.copy_within(start..end, 0);
}

/// Reads at most so many bytes after the first `at` of the buffer.
pub fn read_after<S: Source>(
    source: &mut S,
    buffer: &mut Vec<u8>,
    at: usize,
    most: usize,
) -> Result<usize, Failed>
    requires some { 0 < most }
    requires within { at + most ≤ vec_len buffer.old }
    ensures bound { IfOk result (λ n. n ≤ most) }
    ensures room { vec_len buffer.new ≡ vec_len buffer.old }
    ensures front { take at buffer.new.items ≡ take at buffer.old.items }
    ensures told { S.IsTold → MatchResult result (λ n. (S.left source.old ≡ slice_range buffer.new.items at (at + n) ++ S.left source.new) × (n ≡ 0 → S.left source.old ≡ [])) (λ _. S.left source.new ≡ S.left source.old) }
    ensures counted { S.faults source.new ≡ faults_after (is_err result) (S.faults source.old) }
{
    source.read(&mut buffer[at..at + most])
}
