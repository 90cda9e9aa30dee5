//! A courier in memory, of whose calls some fail.
ghost use Rattle.std.specs.Prelude.{◌≡◌, ◌≤◌, ◌↔◌, ℕ, true, [], List, IfOk, IsTrue, length, vec_capacity};
ghost use Rattle.std.specs.List.{list_all};
ghost use Rattle.pm_outside.specs.Marks.{ends_within};

use crate::{Courier, Failed};
use std::alloc::{AllocError, Global};

/// Where a post lies among the bytes: its path from `start` on, and its body behind the path.
#[derive(Clone, Copy, Debug, PartialEq, Eq)]
struct Mark {
    port: u16,
    start: usize,
    path: usize,
    body: usize,
}

/// A post that was made.
#[derive(Clone, Copy, Debug)]
pub struct Made<'c> {
    pub port: u16,
    pub path: &'c [u8],
    pub body: &'c [u8],
}

/// A courier with room for so many posts, whose paths and bodies have together at most so many bytes. Its calls are numbered
/// from 1; those whose numbers were given fail, and so does a post for which there is no room. No call takes memory.
#[derive(Debug, Drop)]
pub struct MemCourier {
    most: usize,
    room: usize,
    marks: Vec<Mark>,
    bytes: Vec<u8>,
    fails: Vec<u64>,
    calls: u64,
    faults: u64,
    ghost most_held: { most ≤ vec_capacity marks },
    ghost room_held: { room ≤ vec_capacity bytes },
    ghost few: { length marks.items ≤ most },
    ghost within: { length bytes.items ≤ room },
    ghost placed: { list_all (ends_within (length bytes.items)) marks.items ≡ true },
}

impl MemCourier {
    ghost use Rattle.std.specs.Prelude.{◌<◌, ◌+◌, ◌++◌, ◌∷◌, Some, slice_get};
    ghost use Rattle.pm_outside.specs.MemoryCourier.{courier_posts, courier_faults, courier_most, courier_room, courier_bytes, courier_fails, courier_calls, IsPastRoom, PostFailsAt};

    /// A courier that has made no post, of whose calls those of these numbers fail, counted from 1.
    pub fn new(
        alloc: Global,
        posts: u32,
        room: u64,
        fails: &[u64],
    ) -> Result<MemCourier, AllocError>
        ensures empty { IfOk result (λ c. (courier_posts c ≡ []) × (courier_bytes c ≡ 0) × (courier_faults c ≡ 0)) }
        ensures room { IfOk result (λ c. (courier_most c ≡ posts) × (courier_room c ≡ room)) }
        ensures fails { IfOk result (λ c. (courier_fails c ≡ fails.now) × (courier_calls c ≡ 0)) }
    {
        Ok(MemCourier {
            most: posts as usize,
            room: room as usize,
            marks: Vec::with_capacity(alloc, posts as usize)?,
            bytes: Vec::with_capacity(alloc, room as usize)?,
            fails: Vec::from_slice(alloc, fails)?,
            calls: 0,
            faults: 0,
        })
    }

    /// How many posts were made.
    pub fn count(&self) -> usize
        ensures { result ≡ length (courier_posts self.now) }
    {
        self.marks.len()
    }

    /// A post that was made, counted from 0.
    pub fn at(&self, place: usize) -> Made<'_>
        requires { place < length (courier_posts self.now) }
        ensures { slice_get (courier_posts self.now) place ≡ Some (record { port = result.port; path = result.path.now; body = result.body.now }) }
    {
        let mark = self.marks[place];
        let body = mark.start + mark.path;
        Made {
            port: mark.port,
            path: &self.bytes[mark.start..body],
            body: &self.bytes[body..body + mark.body],
        }
    }

    /// How often it has failed.
    pub fn faults(&self) -> u64
        ensures { result ≡ courier_faults self.now }
    {
        self.faults
    }

    fn has_room(&self, path: usize, body: usize) -> bool
        ensures { IsTrue result ↔ (courier_bytes self.now + path + body ≤ courier_room self.now) }
    {
        let left = self.room - self.bytes.len();
        path <= left && body <= left - path
    }

    fn is_past_room(&self, path: usize, body: usize) -> bool
        ensures { IsTrue result ↔ IsPastRoom self.now path body }
    {
        self.most <= self.marks.len() || !self.has_room(path, body)
    }

    fn fails_at(&self, number: u64, path: usize, body: usize) -> bool
        ensures { IsTrue result ↔ PostFailsAt self.now number path body }
    {
        self.fails.contains(&number) || self.is_past_room(path, body)
    }

    // Puts a post for which there is room behind those made.
    fn add(&mut self, port: u16, path: &[u8], body: &[u8])
        requires one_more { length self.old.marks.items < self.old.most }
        requires room { length self.old.bytes.items + length path.now + length body.now ≤ self.old.room }
        ensures made { courier_posts self.new ≡ courier_posts self.old ++ record { port = port; path = path.now; body = body.now } ∷ [] }
        ensures taken { courier_bytes self.new ≡ courier_bytes self.old + length path.now + length body.now }
        ensures calls { (courier_calls self.new ≡ courier_calls self.old) × (courier_faults self.new ≡ courier_faults self.old) }
        ensures plan { (courier_fails self.new ≡ courier_fails self.old) × (courier_most self.new ≡ courier_most self.old) × (courier_room self.new ≡ courier_room self.old) }
    {
        let mark = Mark {
            port,
            start: self.bytes.len(),
            path: path.len(),
            body: body.len(),
        };
        match self.bytes.extend_from_slice(path) {
            Ok(()) => {}
            Err(_) => unreachable!(),
        }
        match self.bytes.extend_from_slice(body) {
            Ok(()) => {}
            Err(_) => unreachable!(),
        }
        match self.marks.push(mark) {
            Ok(()) => {}
            Err(_) => unreachable!(),
        }
    }
}

impl Courier for MemCourier {
    ghost use Rattle.std.specs.Prelude.{◌++◌, ◌+◌, ◌∷◌, map, IsErr, OnOk, OnErr};
    ghost use Rattle.std.specs.Result.{is_err};
    ghost use Rattle.pm_outside.specs.Causes.{faults_after};
    ghost use Rattle.pm_outside.specs.Posts.{Posts};
    ghost use Rattle.pm_outside.specs.Memory.{next_call};
    ghost use Rattle.pm_outside.specs.Marks.{post_at};
    ghost use Rattle.pm_outside.specs.MemoryCourier.{courier_posts, courier_bytes, courier_faults, courier_most, courier_room, courier_fails, courier_calls, IsPostToFail};

    ghost IsTold = { Unit {0} };

    ghost posts = { λ c. map (post_at c.bytes.items) c.marks.items };

    ghost faults = { λ c. c.faults };

    fn post(&mut self, port: u16, path: &[u8], body: &[u8]) -> Result<(), Failed>
        ensures told { Posts (courier_posts self.old) (courier_posts self.new) result (record { port = port; path = path.now; body = body.now }) }
        ensures counted { courier_faults self.new ≡ faults_after (is_err result) (courier_faults self.old) }

        // It fails exactly by its number or for want of room.
        ensures exact { IsErr result ↔ IsPostToFail self.old (length path.now) (length body.now) }
        ensures taken { OnOk result (courier_bytes self.new ≡ courier_bytes self.old + length path.now + length body.now) }
        ensures stays { OnErr result (courier_bytes self.new ≡ courier_bytes self.old) }
        ensures number { courier_calls self.new ≡ next_call (courier_calls self.old) }
        ensures plan { (courier_fails self.new ≡ courier_fails self.old) × (courier_most self.new ≡ courier_most self.old) × (courier_room self.new ≡ courier_room self.old) }
    {
        self.calls = self.calls.saturating_add(1);
        if self.fails_at(self.calls, path.len(), body.len()) {
            self.faults = self.faults.saturating_add(1);
            return Err(Failed);
        }
        self.add(port, path, body);
        Ok(())
    }
}
