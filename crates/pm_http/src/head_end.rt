//! The reading of a head.
ghost use Rattle.std.specs.Prelude.{◌≡◌, ◌≢◌, ◌<◌, ◌≤◌, ◌*◌, ◌⊎◌, ◌++◌, true, false, [], ℕ, List, None, length, vec_len, IfOk, IfErr, OnOk, IfSome};
ghost use Rattle.httparse.specs.Grammar.{HasNoRequest, NeverHasRequest};
ghost use Rattle.pm_outside.specs.Causes.{faults_after};
ghost use Rattle.pm_outside.specs.Feed.{left_to, KnowsEnd, MOST_AHEAD, ReadsOn};
ghost use Rattle.pm_outside.specs.declared.feed.TheConstants.{MOST_READ};
ghost use Rattle.pm_http.specs.Stream.{MOST_HEAD, MOST_SOON, MayBegin, looked_at, is_read_fault};
ghost use Rattle.pm_http.specs.Piece.{MOST_PIECE, Gathers, Grows, StopsInHead, EndsHead, StepsHead, HeadStands, PieceStands, IsBegun, IsSeen, HasNoSpace, EndsBlank, IsLast, ShowsEnd, MayGrow};

use crate::HttpError;
use crate::piece::{Piece, read_piece};
use crate::sight::{Sight, look};
use httparse::spans::{HeaderSpan, RequestSpans};
use memchr::memchr;
use pm_outside::{Feed, Source};

/// How the reading of a head ends.
#[derive(Clone, Copy)]
pub enum HeadEnd {
    /// At a whole head of at most 64 fields, which is gathered.
    Whole(RequestSpans),
    /// At a whole head of more fields.
    Crowded,
    /// At bytes that no head begins with.
    Never,
    /// At 16,384 bytes that hold no whole head.
    Long,
    /// Inside a head, at the end of the input.
    Short,
    /// At the end of the input, before a byte.
    Nothing,
    /// Inside a head or before its first byte, where no more may be read.
    Limit,
}

// The most bytes of a head, those of a line with its line feed, and as many as are looked at again after each read.
const MOST_HEAD: usize = 16_384;

const MOST_PIECE: usize = 2_049;

const MOST_SOON: usize = 1_024;

/// Gathers the head at the start of what is left, with its fields in `fields`. A line is looked at once, and the whole head
/// is parsed after the empty line that ends it. Before each further read of the source the bytes are parsed too, where at
/// most 1,024 came or where they doubled, so that bytes that no head begins with are refused as soon as they came, and the
/// work is in proportion to the bytes, however they come.
pub fn read_head<S: Source>(
    feed: &mut Feed,
    source: &mut S,
    head: &mut Vec<u8>,
    fields: &mut [HeaderSpan],
) -> Result<HeadEnd, HttpError>
    requires within { feed.old.given ≤ MOST_READ }
    requires ahead { length feed.old.buffered ≤ MOST_AHEAD }
    requires knows_end { S.IsTold → KnowsEnd feed.old (S.left source.old) }
    requires empty { head.old.items ≡ [] }
    requires room { length fields.old ≡ 64 }
    ensures split { S.IsTold → OnOk result (left_to feed.old (S.left source.old) ≡ head.new.items ++ left_to feed.new (S.left source.new)) }
    ensures ends { S.IsTold → IfOk result (EndsHead (left_to feed.old (S.left source.old)) head.new.items (left_to feed.new (S.left source.new)) fields.new) }
    ensures shows { IfOk result (ShowsEnd head.new.items fields.new) }
    ensures reads { ReadsOn S.IsTold feed.old feed.new (S.left source.old) (S.left source.new) }
    ensures stands { S.IsTold → IfOk result (HeadStands feed.new.given) }
    ensures stops { S.IsTold → IfErr result (StopsInHead (left_to feed.old (S.left source.old)) (left_to feed.new (S.left source.new))) }
    ensures emptied { IfErr result (λ e. e ≡ HttpError.ReadFault → feed.new.buffered ≡ []) }
    ensures counted { S.faults source.new ≡ faults_after (is_read_fault result) (S.faults source.old) }
{
    let mut begun = false;
    let mut seen = 0;
    'pieces: loop {
        if let Some(end) = read_on(feed, source, head, fields, &mut begun, &mut seen)? {
            return Ok(end);
        }
    }
}

// Gathers one piece more. The head is begun where a space was gathered, and its first `seen` bytes were looked at before a
// read.
fn read_on<S: Source>(
    feed: &mut Feed,
    source: &mut S,
    head: &mut Vec<u8>,
    fields: &mut [HeaderSpan],
    begun: &mut bool,
    seen: &mut usize,
) -> Result<Option<HeadEnd>, HttpError>
    requires within { feed.old.given ≤ MOST_READ }
    requires ahead { length feed.old.buffered ≤ MOST_AHEAD }
    requires knows_end { S.IsTold → KnowsEnd feed.old (S.left source.old) }
    requires few { vec_len head.old < MOST_HEAD }
    requires room { length fields.old ≡ 64 }
    ensures begun { S.IsTold → IsBegun begun.old head.old.items → OnOk result (IsBegun begun.new head.new.items) }
    ensures seen { S.IsTold → (all : List ℕ) → IsSeen seen.old head.old.items → Gathers all head.old.items (left_to feed.old (S.left source.old)) → IfOk result (λ o. o ≡ None → IsSeen seen.new head.new.items) }
    ensures steps { S.IsTold → (all : List ℕ) → IsBegun begun.old head.old.items → Gathers all head.old.items (left_to feed.old (S.left source.old)) → IfOk result (StepsHead all head.new.items (left_to feed.new (S.left source.new)) fields.new) }
    ensures grows { IfOk result (λ o. o ≡ None → (vec_len head.old < vec_len head.new) × (vec_len head.new < MOST_HEAD)) }
    ensures shows { IfOk result (λ o. IfSome o (ShowsEnd head.new.items fields.new)) }
    ensures reads { ReadsOn S.IsTold feed.old feed.new (S.left source.old) (S.left source.new) }
    ensures stands { S.IsTold → IfOk result (λ o. IfSome o (HeadStands feed.new.given)) }
    ensures stops { S.IsTold → (all : List ℕ) → IsSeen seen.old head.old.items → Gathers all head.old.items (left_to feed.old (S.left source.old)) → IfErr result (StopsInHead all (left_to feed.new (S.left source.new))) }
    ensures emptied { IfErr result (λ e. e ≡ HttpError.ReadFault → feed.new.buffered ≡ []) }
    ensures counted { S.faults source.new ≡ faults_after (is_read_fault result) (S.faults source.old) }
{
    if head.reserve(MOST_PIECE).is_err() {
        return out_of_room(head, fields);
    }
    if !may_go_on(feed, head, fields, seen) {
        return Ok(Some(HeadEnd::Never));
    }
    let at = head.len();
    match read_piece(feed, source, head) {
        Ok(piece) => {
            *begun = is_begun(*begun, &head[at..]);
            Ok(judge(piece, *begun, head, fields))
        }
        Err(error) => Err(error),
    }
}

// Whether more bytes may make a head of the gathered ones, as far as they are looked at: where the feed holds none, so that
// the source has to be read.
fn may_go_on(feed: &Feed, head: &[u8], fields: &mut [HeaderSpan], seen: &mut usize) -> bool
    requires room { length fields.old ≡ 64 }
    requires few { length head.now < MOST_HEAD }
    ensures seen { result ≡ true → HasNoRequest head.now → IsSeen seen.old head.now → IsSeen seen.new head.now }
    ensures may { result ≡ true → HasNoRequest head.now → IsSeen seen.old head.now → feed.now.buffered ≡ [] → MayBegin head.now }
    ensures never { result ≡ false → NeverHasRequest (looked_at head.now) }
{
    if !feed.held().is_empty() || !is_due(head.len(), *seen) {
        return true;
    }
    *seen = head.len();
    may_grow(head, fields)
}

// Whether so many bytes are to be looked at, of which the first were.
fn is_due(size: usize, seen: usize) -> bool
    ensures { result ≡ false → (size ≤ seen) ⊎ ((MOST_SOON < size) × (size ≤ 2 * seen)) }
{
    size > seen && (size <= MOST_SOON || size / 2 >= seen)
}

// Whether the head is begun with these bytes more: a space ends its method.
fn is_begun(begun: bool, more: &[u8]) -> bool
    ensures { result ≡ false → (begun ≡ false) × HasNoSpace more.now }
{
    begun || memchr(b' ', more).is_some()
}

// The answer where there is no memory for the next piece: that no head begins so, where that is decided.
#[cold]
fn out_of_room(head: &[u8], fields: &mut [HeaderSpan]) -> Result<Option<HeadEnd>, HttpError>
    requires room { length fields.old ≡ 64 }
    requires few { length head.now < MOST_HEAD }
    ensures steps { (all left : List ℕ) → Gathers all head.now left → IfOk result (StepsHead all head.now left fields.new) }
    ensures some { IfOk result (λ o. o ≢ None) }
    ensures shows { IfOk result (λ o. IfSome o (ShowsEnd head.now fields.new)) }
    ensures stands { (given : ℕ) → given ≤ MOST_READ → IfOk result (λ o. IfSome o (HeadStands given)) }
    ensures stops { (all left : List ℕ) → Gathers all head.now left → IfErr result (StopsInHead all left) }
    ensures memory { IfErr result (λ e. e ≡ HttpError.Memory) }
{
    if may_grow(head, fields) {
        Err(HttpError::Memory)
    } else {
        Ok(Some(HeadEnd::Never))
    }
}

// What the gathered bytes tell, of which the last were moved as this piece.
fn judge(piece: Piece, begun: bool, head: &[u8], fields: &mut [HeaderSpan]) -> Option<HeadEnd>
    requires room { length fields.old ≡ 64 }
    ensures steps { (all left : List ℕ) → IsBegun begun head.now → Grows all head.now left piece → StepsHead all head.now left fields.new result }
    ensures few { result ≡ None → (length head.now < MOST_HEAD) × (IsLast piece → ⊥) }
    ensures shows { IfSome result (ShowsEnd head.now fields.new) }
    ensures stands { (given : ℕ) → PieceStands given piece → IfSome result (HeadStands given) }
{
    match piece {
        Piece::End => at_end(head, fields),
        Piece::Limit => at_limit(head, fields),
        Piece::Line if may_end(begun, head) => in_between(head, fields),
        Piece::Line => unended(head, fields),
        Piece::Part => unended(head, fields),
    }
}

// Whether the gathered bytes may end with the empty line of a head.
fn may_end(begun: bool, head: &[u8]) -> bool
    ensures { result ≡ false → (begun ≡ false) ⊎ (EndsBlank head.now → ⊥) }
{
    begun && (head.ends_with(b"\n\n") || head.ends_with(b"\n\r\n"))
}

// What the gathered bytes tell, where they hold no whole head.
fn unended(head: &[u8], fields: &mut [HeaderSpan]) -> Option<HeadEnd>
    requires room { length fields.old ≡ 64 }
    ensures steps { (all left : List ℕ) (piece : Piece) → (IsLast piece → ⊥) → HasNoRequest head.now → Grows all head.now left piece → StepsHead all head.now left fields.new result }
    ensures few { result ≡ None → length head.now < MOST_HEAD }
    ensures shows { IfSome result (ShowsEnd head.now fields.new) }
    ensures stands { (given : ℕ) → given ≤ MOST_READ → IfSome result (HeadStands given) }
{
    if head.len() < MOST_HEAD {
        return None;
    }
    in_between(head, fields)
}

// What the gathered bytes tell at the end of the input.
fn at_end(head: &[u8], fields: &mut [HeaderSpan]) -> Option<HeadEnd>
    requires room { length fields.old ≡ 64 }
    ensures steps { (all left : List ℕ) → Grows all head.now left Piece.End → StepsHead all head.now left fields.new result }
    ensures some { result ≢ None }
    ensures shows { IfSome result (ShowsEnd head.now fields.new) }
    ensures stands { (given : ℕ) → given < MOST_READ → IfSome result (HeadStands given) }
{
    if head.is_empty() {
        return Some(HeadEnd::Nothing);
    }
    if may_grow(head, fields) {
        Some(HeadEnd::Short)
    } else {
        Some(HeadEnd::Never)
    }
}

// What the gathered bytes tell where no more may be read.
fn at_limit(head: &[u8], fields: &mut [HeaderSpan]) -> Option<HeadEnd>
    requires room { length fields.old ≡ 64 }
    ensures steps { (all left : List ℕ) → Grows all head.now left Piece.Limit → StepsHead all head.now left fields.new result }
    ensures some { result ≢ None }
    ensures shows { IfSome result (ShowsEnd head.now fields.new) }
    ensures stands { (given : ℕ) → given ≡ MOST_READ → IfSome result (HeadStands given) }
{
    if may_grow(head, fields) {
        Some(HeadEnd::Limit)
    } else {
        Some(HeadEnd::Never)
    }
}

// Whether more bytes may make a head of the gathered ones.
fn may_grow(head: &[u8], fields: &mut [HeaderSpan]) -> bool
    requires room { length fields.old ≡ 64 }
    ensures { MayGrow head.now result }
{
    match look(front(head), fields) {
        Sight::Never => false,
        Sight::Whole(_) | Sight::Crowded | Sight::More => true,
    }
}

// What the gathered bytes tell before the end of the input.
fn in_between(head: &[u8], fields: &mut [HeaderSpan]) -> Option<HeadEnd>
    requires room { length fields.old ≡ 64 }
    ensures steps { (all left : List ℕ) (piece : Piece) → (IsLast piece → ⊥) → Grows all head.now left piece → StepsHead all head.now left fields.new result }
    ensures few { result ≡ None → length head.now < MOST_HEAD }
    ensures shows { IfSome result (ShowsEnd head.now fields.new) }
    ensures stands { (given : ℕ) → given ≤ MOST_READ → IfSome result (HeadStands given) }
{
    match look(front(head), fields) {
        Sight::Whole(spans) => Some(HeadEnd::Whole(spans)),
        Sight::Crowded => Some(HeadEnd::Crowded),
        Sight::Never => Some(HeadEnd::Never),
        Sight::More if head.len() < MOST_HEAD => None,
        Sight::More => Some(HeadEnd::Long),
    }
}

// The bytes in which a head has to end.
fn front(head: &[u8]) -> &[u8]
    ensures value { result.now ≡ looked_at head.now }
    ensures few { length result.now ≤ MOST_HEAD }
{
    if head.len() < MOST_HEAD {
        head
    } else {
        &head[..MOST_HEAD]
    }
}
