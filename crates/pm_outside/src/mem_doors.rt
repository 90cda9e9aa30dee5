//! A listener in memory, of whose calls some fail.
ghost use Rattle.std.specs.Prelude.{◌≡◌, ◌≤◌, ◌<◌, ◌+◌, ◌↔◌, ℕ, None, [], List, IfOk, IsErr, length, map, vec_capacity};

use crate::{Doors, Failed, MemSink, MemSource};
use std::alloc::{AllocError, Global};
use std::collections::VecDeque;

/// A listener with connections that are given when it is made. Its calls of `bind` and `next` are numbered together from 1,
/// and those whose numbers were given fail. No call takes memory.
#[derive(Debug, Drop)]
pub struct MemDoors {
    port: Option<u16>,
    left: VecDeque<(MemSource, MemSink)>,
    out: usize,
    ended: Vec<(MemSource, MemSink)>,
    fails: Vec<u64>,
    calls: u64,
    faults: u64,
    ghost room: { length left.items + out + length ended.items ≤ vec_capacity ended },
}

impl MemDoors {
    ghost use Rattle.std.specs.Result.{is_err};
    ghost use Rattle.pm_outside.specs.Causes.{faults_after};
    ghost use Rattle.pm_outside.specs.Memory.{next_call};
    ghost use Rattle.pm_outside.specs.MemoryDoors.{connection_of, doors_port, doors_left, doors_ended, doors_state, doors_out, doors_faults, doors_fails, doors_calls, IsDoorsToFail};

    /// A listener with these connections, of whose calls those of these numbers fail, counted from 1.
    pub fn new(
        alloc: Global,
        connections: Vec<(MemSource, MemSink)>,
        fails: &[u64],
    ) -> Result<MemDoors, AllocError>
        ensures content { IfOk result (λ doors. (doors_left doors ≡ map connection_of connections.items) × (doors_ended doors ≡ []) × (doors_out doors ≡ 0) × (doors_faults doors ≡ 0)) }
        ensures unbound { IfOk result (λ doors. doors_port doors ≡ None) }
        ensures fails { IfOk result (λ doors. (doors_fails doors ≡ fails.now) × (doors_calls doors ≡ 0)) }
    {
        let ended = Vec::with_capacity(alloc, connections.len())?;
        Ok(MemDoors {
            port: None,
            left: VecDeque::from(connections),
            out: 0,
            ended,
            fails: Vec::from_slice(alloc, fails)?,
            calls: 0,
            faults: 0,
        })
    }

    /// The port that it was bound to last.
    pub fn port(&self) -> Option<u16>
        ensures { result ≡ doors_port self.now }
    {
        self.port
    }

    /// How many connections are left.
    pub fn left(&self) -> usize
        ensures { result ≡ length (doors_left self.now) }
    {
        self.left.len()
    }

    /// How many connections are out.
    pub fn out(&self) -> usize
        ensures { result ≡ doors_out self.now }
    {
        self.out
    }

    /// The connections that are done, first to last.
    pub fn ended(&self) -> &[(MemSource, MemSink)]
        ensures { map connection_of result.now ≡ doors_ended self.now }
    {
        self.ended.as_slice()
    }

    /// How often it has failed.
    pub fn faults(&self) -> u64
        ensures { result ≡ doors_faults self.now }
    {
        self.faults
    }

    // Counts a call, and its fault if it is one that is to fail.
    fn begin(&mut self) -> Result<(), Failed>
        ensures exact { IsErr result ↔ IsDoorsToFail self.old }
        ensures counted { doors_faults self.new ≡ faults_after (is_err result) (doors_faults self.old) }
        ensures stays { (doors_state self.new ≡ doors_state self.old) × (doors_out self.new ≡ doors_out self.old) }
        ensures number { doors_calls self.new ≡ next_call (doors_calls self.old) }
        ensures plan { doors_fails self.new ≡ doors_fails self.old }
    {
        self.calls = self.calls.saturating_add(1);
        if self.fails.contains(&self.calls) {
            self.faults = self.faults.saturating_add(1);
            return Err(Failed);
        }
        Ok(())
    }
}

impl Doors for MemDoors {
    ghost use Rattle.std.specs.Prelude.{MatchResult, MatchOption};
    ghost use Rattle.std.specs.Result.{is_err};
    ghost use Rattle.pm_outside.specs.Causes.{faults_after};
    ghost use Rattle.pm_outside.specs.Memory.{next_call};
    ghost use Rattle.pm_outside.specs.Connections.{IsBound, NoneIsLeft, IsTaken, IsEnded};
    ghost use Rattle.pm_outside.specs.MemoryDoors.{doors_state, doors_out, doors_faults, doors_fails, doors_calls, connection_of, IsDoorsToFail};

    type In = MemSource;

    type Out = MemSink;

    ghost IsTold = { Unit {0} };

    ghost state = { doors_state };

    ghost out = { λ d. d.out };

    ghost faults = { λ d. d.faults };

    fn bind(&mut self, port: u16) -> Result<(), Failed>
        ensures told { MatchResult result (λ _. IsBound port (doors_state self.old) (doors_state self.new)) (λ _. doors_state self.new ≡ doors_state self.old) }
        ensures out { doors_out self.new ≡ doors_out self.old }
        ensures counted { doors_faults self.new ≡ faults_after (is_err result) (doors_faults self.old) }

        // It fails exactly by its number.
        ensures exact { IsErr result ↔ IsDoorsToFail self.old }
        ensures number { doors_calls self.new ≡ next_call (doors_calls self.old) }
        ensures plan { doors_fails self.new ≡ doors_fails self.old }
    {
        self.begin()?;
        self.port = Some(port);
        Ok(())
    }

    fn next(&mut self) -> Result<Option<(MemSource, MemSink)>, Failed>
        ensures told { MatchResult result (λ given. MatchOption given (NoneIsLeft (doors_state self.old) (doors_state self.new)) (λ c. IsTaken (connection_of c) (doors_state self.old) (doors_state self.new))) (λ _. doors_state self.new ≡ doors_state self.old) }
        ensures out { MatchResult result (λ given. MatchOption given (doors_out self.new ≡ doors_out self.old) (λ _. doors_out self.new ≡ doors_out self.old + 1)) (λ _. doors_out self.new ≡ doors_out self.old) }
        ensures counted { doors_faults self.new ≡ faults_after (is_err result) (doors_faults self.old) }

        // It fails exactly by its number.
        ensures exact { IsErr result ↔ IsDoorsToFail self.old }
        ensures number { doors_calls self.new ≡ next_call (doors_calls self.old) }
        ensures plan { doors_fails self.new ≡ doors_fails self.old }
    {
        self.begin()?;
        match self.left.pop_front() {
            Some(connection) => {
                self.out += 1;
                Ok(Some(connection))
            }
            None => Ok(None),
        }
    }

    fn done(&mut self, input: MemSource, output: MemSink)
        requires { 0 < doors_out self.old }
        ensures told { IsEnded (connection_of (record { 0 = input; 1 = output })) (doors_state self.old) (doors_state self.new) }
        ensures out { doors_out self.new + 1 ≡ doors_out self.old }
        ensures faults { doors_faults self.new ≡ doors_faults self.old }

        // It is no call with a number.
        ensures number { doors_calls self.new ≡ doors_calls self.old }
        ensures plan { doors_fails self.new ≡ doors_fails self.old }
    {
        match self.ended.push((input, output)) {
            Ok(()) => {}
            Err(_) => unreachable!(),
        }
        self.out -= 1;
    }
}
