//! A link in memory, of whose calls some fail.
ghost use Rattle.std.specs.Prelude.{◌≡◌, ◌≤◌, ◌↔◌, ℕ, [], List, IfOk, IsTrue, length, take};

use crate::link::{Exchange, Link, LinkError};
use pm_base::Blob;
use std::alloc::{AllocError, Global};
use std::collections::VecDeque;

/// A link with replies that are given when it is made. Its calls are numbered from 1; those whose numbers were given fail,
/// and so does one for which no reply is left.
#[derive(Debug, Drop)]
pub struct MemLink {
    replies: VecDeque<Blob>,
    made: Vec<Exchange>,
    fails: Vec<u64>,
    calls: u64,
    faults: u64,
}

impl MemLink {
    ghost use Rattle.pm_outside.specs.MemoryLink.{link_left, link_made, link_faults, link_fails, link_calls, ExchangeFailsAt};

    /// A link with these replies, of whose calls those of these numbers fail, counted from 1.
    pub fn new(alloc: Global, replies: Vec<Blob>, fails: &[u64]) -> Result<MemLink, AllocError>
        ensures content { IfOk result (λ link. (link_left link ≡ replies.items) × (link_made link ≡ []) × (link_faults link ≡ 0)) }
        ensures fails { IfOk result (λ link. (link_fails link ≡ fails.now) × (link_calls link ≡ 0)) }
    {
        Ok(MemLink {
            replies: VecDeque::from(replies),
            made: Vec::new(alloc),
            fails: Vec::from_slice(alloc, fails)?,
            calls: 0,
            faults: 0,
        })
    }

    /// How many replies are left.
    pub fn left(&self) -> usize
        ensures { result ≡ length (link_left self.now) }
    {
        self.replies.len()
    }

    /// The exchanges that were made, first to last.
    pub fn made(&self) -> &[Exchange]
        ensures { result.now ≡ link_made self.now }
    {
        self.made.as_slice()
    }

    /// How often it has failed.
    pub fn faults(&self) -> u64
        ensures { result ≡ link_faults self.now }
    {
        self.faults
    }

    fn fails_at(&self, number: u64) -> bool
        ensures { IsTrue result ↔ ExchangeFailsAt self.now number }
    {
        self.fails.contains(&number) || self.replies.is_empty()
    }
}

// The first of the bytes, at most as many as the limit.
fn cut_after(reply: Blob, limit: usize) -> Blob
    ensures { result ≡ take limit reply }
{
    let mut bytes = reply.into_vec();
    bytes.truncate(limit);
    Blob::from_vec(bytes)
}

impl Link for MemLink {
    ghost use Rattle.pm_outside.specs.Causes.{faults_after};
    ghost use Rattle.pm_outside.specs.Exchanges.{Exchanges, has_link_failed};
    ghost use Rattle.pm_outside.specs.Memory.{next_call};
    ghost use Rattle.pm_outside.specs.MemoryLink.{link_state, link_faults, link_fails, link_calls, IsExchangeToFail};

    ghost IsTold = { Unit {0} };

    ghost state = { link_state };

    ghost faults = { λ l. l.faults };

    fn exchange(
        &mut self,
        alloc: Global,
        port: u16,
        request: &[u8],
        limit: u32,
    ) -> Result<Blob, LinkError>
        ensures bound { IfOk result (λ reply. length reply ≤ limit) }
        ensures told { Exchanges (link_state self.old) (link_state self.new) result (record { port = port; request = request.now }) limit }
        ensures counted { link_faults self.new ≡ faults_after (has_link_failed result) (link_faults self.old) }

        // It fails exactly by its number or for want of a reply.
        ensures exact { IsTrue (has_link_failed result) ↔ IsExchangeToFail self.old }
        ensures number { link_calls self.new ≡ next_call (link_calls self.old) }
        ensures plan { link_fails self.new ≡ link_fails self.old }
    {
        self.calls = self.calls.saturating_add(1);
        if self.fails_at(self.calls) {
            self.faults = self.faults.saturating_add(1);
            return Err(LinkError::Failed);
        }
        let request = Blob::from_slice(alloc, request)?;
        if self.made.push(Exchange { port, request }).is_err() {
            return Err(LinkError::Memory);
        }
        match self.replies.pop_front() {
            Some(reply) => Ok(cut_after(reply, limit as usize)),
            None => unreachable!(),
        }
    }
}
