//! The pieces in which a head is gathered: its lines, and parts of them. A head ends with a line, so no byte after it is taken.
ghost use Rattle.std.specs.Prelude.{◌≡◌, ◌<◌, ◌≤◌, ◌+◌, ◌-◌, ◌++◌, [], length, vec_len, vec_capacity, take, replicate, IfOk, IfErr, OnErr};
ghost use Rattle.pm_base.specs.Lines.{HasNoLineFeed};
ghost use Rattle.pm_outside.specs.Causes.{faults_after};
ghost use Rattle.pm_outside.specs.Feed.{left_to, KnowsEnd, ReadsOn};
ghost use Rattle.pm_http.specs.Stream.{MOST_HEAD, is_read_fault};
ghost use Rattle.pm_http.specs.Piece.{MOST_PIECE, Moves, IsLast, PieceStands, EndsAs};

use crate::HttpError;
use crate::taking::take_after;
use memchr::memchr;
use pm_outside::{Feed, FeedError, Source};

/// A piece of a head.
#[derive(Clone, Copy, Debug, PartialEq, Eq)]
pub enum Piece {
    /// A line, or the rest of one, with its end.
    Line,
    /// A part of a line, without its end.
    Part,
    /// Nothing, at the end.
    End,
    /// Nothing, where no more may be read.
    Limit,
}

// The most bytes of a piece: those of a line with its line feed.
const MOST_PIECE: usize = 2_049;

/// Moves the next piece after what is gathered. There is room for it. It is of the bytes that the feed holds, up to a line
/// feed; where the feed holds none it is one byte, for which the source is read once.
pub fn read_piece<S: Source>(
    feed: &mut Feed,
    source: &mut S,
    head: &mut Vec<u8>,
) -> Result<Piece, HttpError>
    requires knows_end { S.IsTold → KnowsEnd feed.old (S.left source.old) }
    requires few { vec_len head.old ≤ MOST_HEAD }
    requires room { vec_len head.old + MOST_PIECE ≤ vec_capacity head.old }
    ensures moves { S.IsTold → IfOk result (Moves head.old.items (left_to feed.old (S.left source.old)) head.new.items (left_to feed.new (S.left source.new))) }
    ensures longer { IfOk result (λ _. vec_len head.old ≤ vec_len head.new) }
    ensures grows { IfOk result (λ piece. (IsLast piece → ⊥) → vec_len head.old < vec_len head.new) }
    ensures reads { ReadsOn S.IsTold feed.old feed.new (S.left source.old) (S.left source.new) }
    ensures stands { S.IsTold → IfOk result (PieceStands feed.new.given) }
    ensures stays { S.IsTold → OnErr result (left_to feed.new (S.left source.new) ≡ left_to feed.old (S.left source.old)) }
    ensures fault { IfErr result (λ e. e ≡ HttpError.ReadFault) }
    ensures wanted { OnErr result (feed.old.buffered ≡ []) }
    ensures emptied { OnErr result (feed.new.buffered ≡ []) }
    ensures counted { S.faults source.new ≡ faults_after (is_read_fault result) (S.faults source.old) }
{
    let at = head.len();
    let most = piece_size(feed.held());
    widen(head, at + most);
    match take_after(feed, source, head, at) {
        Ok(0) => {
            head.truncate(at);
            Ok(Piece::End)
        }
        Ok(count) => {
            head.truncate(at + count);
            Ok(kind_of(head))
        }
        Err(FeedError::Failed) => Err(HttpError::ReadFault),
        Err(FeedError::Limit) => {
            head.truncate(at);
            Ok(Piece::Limit)
        }
    }
}

// How many bytes the next piece has at the most, by those that the feed holds. None before the last is a line feed.
fn piece_size(held: &[u8]) -> usize
    ensures some { 0 < result }
    ensures most { result ≤ MOST_PIECE }
    ensures within { result ≤ length held.now + 1 }
    ensures plain { HasNoLineFeed (take (result - 1) held.now) }
{
    if held.is_empty() {
        return 1;
    }
    let first = first_of(held);
    match memchr(b'\n', first) {
        Some(at) => at + 1,
        None => first.len(),
    }
}

// The bytes in which the next piece ends.
fn first_of(held: &[u8]) -> &[u8]
    ensures value { result.now ≡ take MOST_PIECE held.now }
    ensures few { length result.now ≤ MOST_PIECE }
    ensures within { length result.now ≤ length held.now }
    ensures some { 0 < length held.now → 0 < length result.now }
{
    if held.len() < MOST_PIECE {
        held
    } else {
        &held[..MOST_PIECE]
    }
}

// Whether the last piece is a line, by the end of what is gathered.
fn kind_of(head: &[u8]) -> Piece
    ensures { EndsAs head.now result }
{
    if head.ends_with(b"\n") {
        Piece::Line
    } else {
        Piece::Part
    }
}

// Makes a vector longer, by zeros, for which there is room.
fn widen(head: &mut Vec<u8>, size: usize)
    requires { size ≤ vec_capacity head.old }
    ensures items { head.new.items ≡ take size head.old.items ++ replicate (size - vec_len head.old) 0 }
    ensures len { vec_len head.new ≡ size }
{
    match head.resize(size, 0) {
        Ok(()) => {}
        Err(_) => unreachable!(),
    }
}
