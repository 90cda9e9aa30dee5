//! How far a slot is from its next registered event (discrete event registration, TS 32.404).
ghost use Rattle.std.specs.Prelude.{◌≡◌, ◌<◌, ◌≤◌, length, map, IfOk};
ghost use Rattle.pm_batch.specs.Reading.{AreOfSlots};
ghost use Rattle.pm_batch.specs.Phases.{ArePhases, begun, first_phase, registered_by, registers, stepped};

use pm_events::{Hit, SlotTable};
use std::alloc::{AllocError, Global};

/// How many events a slot had since the last one that was registered, and of how many one is: 1 to 1,000.
#[derive(Clone, Copy, Debug)]
pub struct Phase {
    pub(crate) seen: u16,
    pub(crate) each: u16,
}

impl Phase {
    /// One event more. Whether it is registered.
    #[inline(always)]
    pub(crate) fn step(&mut self) -> bool
        requires below { self.old.seen < self.old.each }
        requires range { self.old.each ≤ 1000 }
        ensures registered { result ≡ registers self.old }
        ensures stepped { self.new ≡ stepped self.old }
        ensures below { self.new.seen < self.new.each }
        ensures range { self.new.each ≤ 1000 }
    {
        let seen = self.seen + 1;
        if seen < self.each {
            self.seen = seen;
            return false;
        }
        self.seen = 0;
        true
    }
}

/// The phase of each slot before its first event.
pub(crate) fn first_phases(alloc: Global, slots: &SlotTable) -> Result<Vec<Phase>, AllocError>
    ensures first { IfOk result (λ phases. phases.items ≡ map first_phase slots.now) }
    ensures sound { IfOk result (λ phases. ArePhases phases.items) }
{
    let mut phases = Vec::with_capacity(alloc, usize::from(slots.len()))?;
    for slot in 0..slots.len() {
        phases.push(Phase {
            seen: 0,
            each: slots.registers_each(slot),
        })?;
    }
    Ok(phases)
}

/// Begins the phase of each slot anew.
pub(crate) fn begin_anew(phases: &mut [Phase])
    requires { ArePhases phases.old }
    ensures anew { phases.new ≡ map begun phases.old }
    ensures sound { ArePhases phases.new }
{
    for phase in phases.iter_mut() {
        phase.seen = 0;
    }
}

/// How many of these hits are registered. The phases move on by them.
pub(crate) fn count_registered(phases: &mut [Phase], hits: &[Hit]) -> u64
    requires sound { ArePhases phases.old }
    requires slots { AreOfSlots (length phases.old) hits.now }
    ensures count { result ≡ registered_by phases.old hits.now }
    ensures sound { ArePhases phases.new }
{
    let mut count = 0;
    for hit in hits {
        if phases[hit.slot as usize].step() {
            count += 1;
        }
    }
    count
}
