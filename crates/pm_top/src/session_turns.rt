//! A session: requests in order, a reply to each.
ghost use Rattle.std.specs.Prelude.{◌≡◌, ◌≤◌, ◌<◌, [], length, true, false, Some, IfNone, MatchOption};
ghost use Rattle.pm_outside.specs.Causes.{faults_after};
ghost use Rattle.pm_outside.specs.Feed.{left_to, KnowsEnd, ReadsOn, MOST_AHEAD};
ghost use Rattle.pm_batch.specs.declared.batch.TheConstants.{MOST_BODY};
ghost use Rattle.pm_http.specs.Reply.{reply_text};
ghost use Rattle.pm_state.specs.Given as given;
ghost use Rattle.pm_engine.specs.Bears.{inventory_of, Run, Carries, IsUsable};
ghost use Rattle.pm_top.specs.Session.{input_of, output_of, mail_of, store_of, EndsWith, IsSession, ends_by_read, ends_by_write, ends_by_store};
ghost use Rattle.pm_top.specs.SessionSteps.{GoesOn, TakesTurn, RefusesFraming, is_end};

use crate::SessionEnd;
use crate::asking::answer;
use pm_base::Code;
use pm_disk::Disk;
use pm_engine::{Engine, EngineError};
use pm_http::{HttpError, Next, Request, next_request, write_reply};
use pm_outside::{Courier, Feed, MOST_READ, Sink, Source};
use pm_state::refused;
use std::alloc::Global;

// A request has a byte at least, so no session has as many turns.
const MOST_TURNS: u64 = MOST_READ + 1;

/// Carries a session: it reads requests from the input, in order, and answers each before it reads the next one. After each reply the notices
/// that are due are posted to the subscriptions; a post that fails is no end. A request is asked at the
/// moment of its Pm-Moment field (seconds since 1970-01-01 UTC), or at the last moment where it has none; a field that is no moment is
/// refused with H8, and adds nothing.
pub fn session<S: Source, K: Sink, D: Disk, P: Courier>(
    alloc: Global,
    feed: &mut Feed,
    input: &mut S,
    output: &mut K,
    engine: &mut Engine,
    disk: &mut D,
    courier: &mut P,
) -> SessionEnd
    requires usable { IsUsable D.IsTold engine.old (D.told disk.old) }
    requires knows_end { S.IsTold → KnowsEnd feed.old (S.left input.old) }
    requires ahead { length feed.old.buffered ≤ MOST_AHEAD }

    ensures session { (run : Run) → Carries D.IsTold engine.old (D.told disk.old) run
        → IsSession (inventory_of engine.old)
        (input_of S.IsTold feed.old.given (left_to feed.old (S.left input.old)) (left_to feed.new (S.left input.new)))
        (output_of K.IsTold (K.written output.old) (K.written output.new))
        (mail_of P.IsTold (P.posts courier.old) (P.posts courier.new) (P.faults courier.old) (P.faults courier.new)) (store_of D.IsTold (D.told disk.new)) run result }
    ensures few { length feed.new.buffered ≤ MOST_AHEAD }
    ensures emptied { result ≡ SessionEnd.ReadFault → feed.new.buffered ≡ [] }
    ensures read { S.faults input.new ≡ faults_after (ends_by_read result) (S.faults input.old) }
    ensures write { K.faults output.new ≡ faults_after (ends_by_write result) (K.faults output.old) }
    ensures store { D.faults disk.new ≡ faults_after (ends_by_store result) (D.faults disk.old) }
{
    let start = feed.given();
    'turns: for _turn in 0..MOST_TURNS {
        match take_turn(alloc, start, feed, input, output, engine, disk, courier) {
            None => {}
            Some(end) => return end,
        }
    }
    SessionEnd::Limit
}

// Reads a request, answers it and writes its reply; or the session ends.
fn take_turn<S: Source, K: Sink, D: Disk, P: Courier>(
    alloc: Global,
    start: u64,
    feed: &mut Feed,
    input: &mut S,
    output: &mut K,
    engine: &mut Engine,
    disk: &mut D,
    courier: &mut P,
) -> Option<SessionEnd>
    requires usable { IsUsable D.IsTold engine.old (D.told disk.old) }
    requires knows_end { S.IsTold → KnowsEnd feed.old (S.left input.old) }
    requires started { S.IsTold → start ≤ feed.old.given }

    ensures turn { (run : Run) → Carries D.IsTold engine.old (D.told disk.old) run
        → TakesTurn (inventory_of engine.old) start
        (input_of S.IsTold feed.old.given (left_to feed.old (S.left input.old)) (left_to feed.new (S.left input.new)))
        (output_of K.IsTold (K.written output.old) (K.written output.new))
        (mail_of P.IsTold (P.posts courier.old) (P.posts courier.new) (P.faults courier.old) (P.faults courier.new)) (store_of D.IsTold (D.told disk.new))
        (Carries D.IsTold engine.new (D.told disk.new)) run result }
    ensures usable { IfNone result (IsUsable D.IsTold engine.new (D.told disk.new)) }
    ensures inventory { inventory_of engine.new ≡ inventory_of engine.old }
    ensures reads { ReadsOn S.IsTold feed.old feed.new (S.left input.old) (S.left input.new) }
    ensures takes { S.IsTold → IfNone result (feed.old.given < feed.new.given) }
    ensures emptied { result ≡ Some SessionEnd.ReadFault → feed.new.buffered ≡ [] }
    ensures read { S.faults input.new ≡ faults_after (is_end ends_by_read result) (S.faults input.old) }
    ensures write { K.faults output.new ≡ faults_after (is_end ends_by_write result) (K.faults output.old) }
    ensures store { D.faults disk.new ≡ faults_after (is_end ends_by_store result) (D.faults disk.old) }
{
    match next_request(alloc, feed, input) {
        Ok(Next::Request(request)) => carry(alloc, output, engine, disk, courier, &request),
        Ok(Next::End) => Some(SessionEnd::Ended),
        Ok(Next::Framing { code, offset }) => {
            let offset = offset.saturating_sub(start);
            Some(refuse_framing(alloc, output, engine, code, offset))
        }
        Ok(Next::CutShort { offset }) => {
            let offset = offset.saturating_sub(start);
            Some(SessionEnd::CutShort { offset })
        }
        Err(HttpError::ReadFault) => Some(SessionEnd::ReadFault),
        Err(HttpError::Limit) => Some(SessionEnd::Limit),
        Err(HttpError::Memory) => Some(SessionEnd::Memory),
    }
}

// Answers a request, writes its reply, and posts what is due then; or the session ends.
fn carry<K: Sink, D: Disk, P: Courier>(
    alloc: Global,
    output: &mut K,
    engine: &mut Engine,
    disk: &mut D,
    courier: &mut P,
    request: &Request,
) -> Option<SessionEnd>
    requires usable { IsUsable D.IsTold engine.old (D.told disk.old) }
    requires few { length request.now.body ≤ MOST_BODY }

    ensures turn { (run : Run) → Carries D.IsTold engine.old (D.told disk.old) run
        → MatchOption result
        (GoesOn (inventory_of engine.old) (output_of K.IsTold (K.written output.old) (K.written output.new))
        (mail_of P.IsTold (P.posts courier.old) (P.posts courier.new) (P.faults courier.old) (P.faults courier.new)) (Carries D.IsTold engine.new (D.told disk.new)) run request.now)
        (EndsWith (inventory_of engine.old) (output_of K.IsTold (K.written output.old) (K.written output.new))
        (mail_of P.IsTold (P.posts courier.old) (P.posts courier.new) (P.faults courier.old) (P.faults courier.new)) (store_of D.IsTold (D.told disk.new)) run request.now) }
    ensures usable { IfNone result (IsUsable D.IsTold engine.new (D.told disk.new)) }
    ensures inventory { inventory_of engine.new ≡ inventory_of engine.old }
    ensures unread { is_end ends_by_read result ≡ false }
    ensures write { K.faults output.new ≡ faults_after (is_end ends_by_write result) (K.faults output.old) }
    ensures store { D.faults disk.new ≡ faults_after (is_end ends_by_store result) (D.faults disk.old) }
{
    let reply = match answer(alloc, engine, disk, request) {
        Ok(reply) => reply,
        Err(EngineError::StoreFault) => return Some(SessionEnd::StoreFault),
        Err(EngineError::StoreFull { length, need }) => {
            return Some(SessionEnd::StoreFull { length, need })
        }
    };
    match write_reply(alloc, output, &reply, engine.now(), request.close) {
        Ok(()) => {}
        Err(_) => return Some(SessionEnd::WriteFault),
    }
    engine.deliver(courier);
    if request.close {
        return Some(SessionEnd::Closed);
    }
    None
}

// Replies to a request that is refused by how it is framed, at the last moment. The reply closes.
fn refuse_framing<K: Sink>(
    alloc: Global,
    output: &mut K,
    engine: &Engine,
    code: Code,
    offset: u64,
) -> SessionEnd
    ensures refused { RefusesFraming (output_of K.IsTold (K.written output.old) (K.written output.new)) code offset (reply_text (given.refused code) engine.now.state.last true) result }
    ensures write { K.faults output.new ≡ faults_after (ends_by_write result) (K.faults output.old) }
{
    match write_reply(alloc, output, &refused(alloc, code), engine.now(), true) {
        Ok(()) => SessionEnd::Framing { code, offset },
        Err(_) => SessionEnd::WriteFault,
    }
}
