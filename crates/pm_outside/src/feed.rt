//! Buffered input, by lines or by bytes.
//!
//! A feed reads a source through a buffer of 65,536 bytes. It doesn't hold the source: each call that reads is handed it.
//! A line ends at a line feed, and the last one may lack it. A feed takes 1,099,511,627,776 bytes from its source at the
//! most, so every loop over a feed ends.
ghost use Rattle.std.specs.Prelude.{◌≡◌, ◌+◌, ◌-◌, ◌^◌, ◌<◌, ◌≤◌, ◌⊎◌, ◌↔◌, ℕ, List, true, false, [], ◌++◌, length, vec_len, take, slice_range, min, IfOk, IfErr, OnOk, OnErr, IfSome, IfNone, OnSome, IsErrOf, MatchResult, MatchOption, Some, Ok, Err};
ghost use Rattle.std.specs.Io.{ReadsAtMost};
ghost use Rattle.pm_outside.specs.Causes.{faults_after};
ghost use Rattle.pm_outside.specs.Outside.{Gives};
ghost use Rattle.pm_base.specs.Lines.{HasNoLine, MOST_LINE};
ghost use Rattle.pm_outside.specs.Feed.{FeedState, left_to, KnowsEnd, IsNextLine, MOST_AHEAD, MeetsLimit, IsSpent, is_failed, ReadsOn};

use crate::buffer::{move_to_front, read_after};
use crate::copying::copy_front;
use crate::line::{Found, find_line};
use crate::{Line, Source};
use std::alloc::{AllocError, Global};
use std::marker::Model;
use thiserror::Error;

/// Why a feed doesn't answer.
#[derive(Clone, Copy, Debug, PartialEq, Eq, Error)]
pub enum FeedError {
    /// The source failed, and counted one fault.
    #[error("the input could not be read")]
    Failed,
    /// 1,099,511,627,776 bytes were taken from the source, and neither the bytes in the buffer nor a known end of the source
    /// give the answer.
    #[error("the input has more than 1099511627776 bytes")]
    Limit,
}

// The bytes of a buffer.
const ROOM: usize = 65_536;

/// The most bytes that a feed takes from its source.
pub const MOST_READ: u64 = 1_099_511_627_776;

/// A buffer between a source and its reader.
#[derive(Debug, Drop)]
pub struct Feed {
    buffer: Vec<u8>,
    // The bytes that were read and not taken.
    start: usize,
    end: usize,
    // The line that is lent.
    line: usize,
    stop: usize,
    read: u64,
    ended: bool,
}

impl Model for Feed {
    ghost use Rattle.std.specs.Prelude.{◌-◌, slice_range};
    ghost use Rattle.pm_outside.specs.Feed.{FeedState};

    ghost Value = { FeedState };

    ghost use Rattle.pm_outside.specs.FeedFields.{IsOrdered, feed_state};

    ghost view = { feed_state };

    ghost invariant = { IsOrdered };
}

impl Feed {
    /// A feed that has read nothing. No later call takes memory.
    pub fn new(alloc: Global) -> Result<Feed, AllocError>
        ensures { IfOk result (λ feed. feed ≡ record { given = 0; buffered = []; line = []; ended = false }) }
    {
        Ok(Feed {
            buffer: vec![in alloc; 0u8; room()]?,
            start: 0,
            end: 0,
            line: 0,
            stop: 0,
            read: 0,
            ended: false,
        })
    }

    /// How many bytes `line` and `take` have taken out of the feed.
    pub fn given(&self) -> u64
        ensures value { result ≡ self.now.given }
        ensures most { result ≤ MOST_READ }
    {
        self.read - (self.end - self.start) as u64
    }

    /// The bytes that were read and not taken, at most 65,536. The next call takes of them first.
    pub fn held(&self) -> &[u8]
        ensures value { result.now ≡ self.now.buffered }
        ensures few { length result.now ≤ MOST_AHEAD }
    {
        &self.buffer[self.start..self.end]
    }

    /// The bytes of the line, without its line feed, where the last call of `line` or `take` was a `line` that answered
    /// `Whole`; else none.
    pub fn bytes(&self) -> &[u8]
        ensures { result.now ≡ self.now.line }
    {
        &self.buffer[self.line..self.stop]
    }

    /// Takes the next line. After an error the same bytes are left.
    pub fn line<S: Source>(&mut self, source: &mut S) -> Result<Line, FeedError>
        requires { S.IsTold → KnowsEnd self.old (S.left source.old) }
        ensures line { S.IsTold → IfOk result (λ line. IsNextLine (left_to self.old (S.left source.old)) line self.new.line (left_to self.new (S.left source.new))) }
        ensures stays { S.IsTold → OnErr result (left_to self.new (S.left source.new) ≡ left_to self.old (S.left source.old)) }
        ensures none_lent { OnErr result (self.new.line ≡ []) }
        ensures reads { ReadsOn S.IsTold self.old self.new (S.left source.old) (S.left source.new) }

        // Of any source: each line takes a byte at least, and the end stands before the limit.
        ensures takes { (n : ℕ) → result ≡ Ok (Line.Whole n) → self.old.given < self.new.given }
        ensures end { result ≡ Ok Line.End → self.old.given < MOST_READ }

        // A line without its line feed is the last one: the end is known after it, before the limit.
        ensures last { (n : ℕ) → result ≡ Ok (Line.Whole n) → self.new.given ≡ self.old.given + n → (self.new.ended ≡ true) × (self.new.given < MOST_READ) }

        // The limit comes exactly where it is met.
        ensures limit { S.IsTold → result ≡ Err FeedError.Limit → MeetsLimit self.old (S.left source.old) }
        ensures within { S.IsTold → OnOk result (MeetsLimit self.old (S.left source.old) → ⊥) }

        // What the buffer tells is told, whatever the source does.
        ensures wanted { OnErr result (HasNoLine self.old.buffered × (self.old.ended ≡ false)) }
        ensures open_line { OnErr result (HasNoLine self.new.buffered) }
        ensures counted { S.faults source.new ≡ faults_after (is_failed result) (S.faults source.old) }
    {
        'reads: loop {
            if let Some(line) = self.buffered_line() {
                return Ok(line);
            }
            self.refill(source)?;
        }
    }

    /// Takes the first bytes that are left into the front of the buffer, and answers how many: none only at the end or into
    /// a buffer without room. After an error the same bytes are left.
    pub fn take<S: Source>(&mut self, source: &mut S, buf: &mut [u8]) -> Result<usize, FeedError>
        requires { S.IsTold → KnowsEnd self.old (S.left source.old) }
        ensures bound { ReadsAtMost result buf.new }
        ensures taken { S.IsTold → Gives (left_to self.old (S.left source.old)) (left_to self.new (S.left source.new)) result buf.new }
        ensures none_lent { self.new.line ≡ [] }
        ensures reads { ReadsOn S.IsTold self.old self.new (S.left source.old) (S.left source.new) }

        // Of any source: the end stands before the limit.
        ensures end { result ≡ Ok 0 → 0 < length buf.old → self.old.given < MOST_READ }

        // The limit comes exactly where it is met.
        ensures limit { result ≡ Err FeedError.Limit → IsSpent self.old × (0 < length buf.old) }
        ensures within { OnOk result (IsSpent self.old → 0 < length buf.old → ⊥) }

        // What the buffer holds is given, whatever the source does.
        ensures wanted { OnErr result ((self.old.buffered ≡ []) × (self.old.ended ≡ false) × (0 < length buf.old)) }
        ensures emptied { OnErr result (self.new.buffered ≡ []) }
        ensures counted { S.faults source.new ≡ faults_after (is_failed result) (S.faults source.old) }
    {
        self.line = 0;
        self.stop = 0;
        if buf.is_empty() {
            return Ok(0);
        }
        self.fill_empty(source)?;
        Ok(self.take_buffered(buf))
    }

    // Reads where the buffer is empty and the end isn't known.
    fn fill_empty<S: Source>(&mut self, source: &mut S) -> Result<(), FeedError>
        requires none_lent { self.old.line ≡ [] }
        requires knows_end { S.IsTold → KnowsEnd self.old (S.left source.old) }
        ensures stays { S.IsTold → left_to self.new (S.left source.new) ≡ left_to self.old (S.left source.old) }
        ensures given { self.new.given ≡ self.old.given }
        ensures none_lent { self.new.line ≡ [] }
        ensures ahead { length self.new.buffered ≤ MOST_AHEAD }
        ensures emptied { OnErr result (self.new.buffered ≡ []) }
        ensures some { OnOk result ((0 < length self.new.buffered) ⊎ (self.new.ended ≡ true)) }
        ensures knows_end { S.IsTold → KnowsEnd self.new (S.left source.new) }
        ensures limit { result ≡ Err FeedError.Limit → IsSpent self.old }
        ensures within { OnOk result (IsSpent self.old → ⊥) }
        ensures wanted { OnErr result ((self.old.buffered ≡ []) × (self.old.ended ≡ false)) }
        ensures counted { S.faults source.new ≡ faults_after (is_failed result) (S.faults source.old) }
    {
        if self.ended || self.start < self.end {
            return Ok(());
        }
        self.refill(source)
    }

    // Moves bytes from the front of the buffer.
    fn take_buffered(&mut self, buf: &mut [u8]) -> usize
        ensures within { self.old.given + length self.old.buffered ≤ MOST_READ }
        ensures before_end { self.old.ended ≡ true → self.old.given + length self.old.buffered < MOST_READ }
        ensures ahead { length self.new.buffered ≤ MOST_AHEAD }
        ensures count { result ≡ min (length self.old.buffered) (length buf.old) }
        ensures moved { self.old.buffered ≡ take result buf.new ++ self.new.buffered }
        ensures given { self.new.given ≡ self.old.given + result }
        ensures line { self.new.line ≡ self.old.line }
        ensures ended { self.new.ended ≡ self.old.ended }
    {
        let count = copy_front(&self.buffer[self.start..self.end], buf);
        self.start += count;
        count
    }

    // The next line, where the bytes in the buffer or the known end of the source tell it.
    #[inline(always)]
    fn buffered_line(&mut self) -> Option<Line>
        ensures ahead { length self.new.buffered ≤ MOST_AHEAD }
        ensures line { IfSome result (λ line. (rest : List ℕ) → KnowsEnd self.old rest → IsNextLine (left_to self.old rest) line self.new.line (left_to self.new rest)) }
        ensures told { OnSome result ((self.old.ended ≡ true) ⊎ (HasNoLine self.old.buffered → ⊥)) }
        ensures open_line { IfNone result (HasNoLine self.old.buffered) }
        ensures unended { IfNone result (self.old.ended ≡ false) }
        ensures stays { IfNone result (self.new ≡ record self.old { line = [] }) }
        ensures given { self.new.given + length self.new.buffered ≡ self.old.given + length self.old.buffered }
        ensures ended { self.new.ended ≡ self.old.ended }
        ensures within { self.old.given + length self.old.buffered ≤ MOST_READ }
        ensures takes { (n : ℕ) → result ≡ Some (Line.Whole n) → self.old.given < self.new.given }
        ensures end { result ≡ Some Line.End → self.old.given < MOST_READ }
        ensures last { (n : ℕ) → result ≡ Some (Line.Whole n) → self.new.given ≡ self.old.given + n → (self.new.ended ≡ true) × (self.new.given < MOST_READ) }
    {
        self.line = 0;
        self.stop = 0;
        match find_line(&self.buffer[self.start..self.end], self.ended) {
            Found::Line { length, taken } => {
                self.line = self.start;
                self.stop = self.start + length;
                self.start += taken;
                Some(Line::Whole {
                    length: length as u32,
                })
            }
            Found::Long => Some(Line::Long),
            Found::End => Some(Line::End),
            Found::Unknown => None,
        }
    }

    // Reads once more, where the limit allows it. The buffer has less than a line, so there is room.
    #[cold]
    #[inline(never)]
    fn refill<S: Source>(&mut self, source: &mut S) -> Result<(), FeedError>
        requires short { length self.old.buffered ≤ MOST_LINE }
        requires unended { self.old.ended ≡ false }
        requires none_lent { self.old.line ≡ [] }
        ensures stays { S.IsTold → left_to self.new (S.left source.new) ≡ left_to self.old (S.left source.old) }
        ensures given { self.new.given ≡ self.old.given }
        ensures none_lent { self.new.line ≡ [] }
        ensures ahead { length self.new.buffered ≤ MOST_AHEAD }
        ensures grown { OnOk result ((length self.old.buffered < length self.new.buffered) ⊎ ((self.new.ended ≡ true) × (length self.new.buffered ≡ length self.old.buffered))) }
        ensures unchanged { OnErr result (self.new ≡ self.old) }
        ensures within { OnOk result (self.old.given + length self.old.buffered < MOST_READ) }
        ensures knows_end { S.IsTold → KnowsEnd self.new (S.left source.new) }
        ensures before_limit { self.new.ended ≡ true → self.new.given + length self.new.buffered < MOST_READ }
        ensures limit { result ≡ Err FeedError.Limit → self.old.given + length self.old.buffered ≡ MOST_READ }
        ensures counted { S.faults source.new ≡ faults_after (is_failed result) (S.faults source.old) }
    {
        if self.read >= MOST_READ {
            return Err(FeedError::Limit);
        }
        move_to_front(&mut self.buffer, self.start, self.end);
        self.end -= self.start;
        self.start = 0;
        self.line = 0;
        self.stop = 0;
        let room = (ROOM - self.end).min((MOST_READ - self.read) as usize);
        match read_after(source, &mut self.buffer, self.end, room) {
            Ok(count) => {
                self.end += count;
                self.read += count as u64;
                self.ended = count == 0;
                Ok(())
            }
            Err(_) => Err(FeedError::Failed),
        }
    }
}

fn room() -> usize
    ensures { result ≡ 65536 }
{
    ROOM
}
