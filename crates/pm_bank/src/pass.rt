//! A pass, by which one thread counts events.
ghost use Rattle.std.specs.Prelude.{◌≡◌, ◌+◌, ◌<◌, ◌≤◌, ◌↔◌, [], ◌∷◌, length, IfOk, IsErr, OnErr, MatchResult};
ghost use Rattle.pm_bank.specs.Entries.{AreSound};
ghost use Rattle.pm_bank.specs.Views.{Follows, with_hits, with_run};

use crate::bank::Bank;
use crate::error::Spent;
use crate::pass_steps::{arrive, glance};
use crate::run::{Scratch, count_hits};
use crate::view::{Hit, View};
use crate::visit::{Visit, count_one};
use atomic_table::Seat;
use pm_meas::MAX_VALUE;
use std::marker::{Brand, Model};

/// A right to count so many events into one bank. A pass that is dropped counts as out for good.
#[derive(Drop)]
pub struct Pass {
    pub(crate) seat: Seat<(), View>,
    pub(crate) since: u32,
    pub(crate) quota: u32,
    pub(crate) left: u32,
}

impl Model for Pass {
    ghost use Rattle.pm_bank.specs.Views.{PassView};
    ghost use Rattle.pm_bank.specs.Steps.{IsPass};

    ghost Value = { PassView };

    ghost view = { λ p. record { bank = p.seat.table_id; since = p.since; quota = p.quota; entries = p.seat.me.0.entries; looks = p.seat.me.0.numbers.looks; seen = p.seat.me.0.numbers.seen } };

    ghost invariant = { λ p. IsPass p.seat.me p.since p.quota p.left };
}

impl Pass {
    /// How many events of the quota are left.
    pub fn left(&self) -> u32
        ensures { length self.now.entries + result ≡ self.now.quota }
    {
        self.left
    }

    /// Counts one event, and answers its epoch, the one at its arrival.
    pub fn count(&mut self, bank: &Bank, slot: u32, value: u32) -> Result<u32, Spent>
        requires bank { self.old.bank ≡ bank.now.id }
        requires slot { slot < bank.now.slots }
        requires value { value ≤ MAX_VALUE }
        ensures counted { IfOk result (λ epoch. (self.new ≡ with_hits self.old epoch (record { slot = slot; value = value } ∷ [])) × Follows self.old epoch) }
        ensures refused { OnErr result (self.new ≡ self.old) }
        ensures spent { IsErr result ↔ (length self.old.entries ≡ self.old.quota) }
    {
        if self.left == 0 {
            return Err(Spent);
        }
        let epoch = count_one::<Brand>(&bank.table, &mut self.seat, slot, value);
        self.left -= 1;
        Ok(epoch)
    }

    /// Counts a run of events, all in one epoch, and answers it; a run of none is answered with the epoch that is open.
    /// `scratch` is of as many slots as the bank.
    pub fn count_run(
        &mut self,
        bank: &Bank,
        hits: &[Hit],
        scratch: &mut Scratch,
    ) -> Result<u32, Spent>
        requires bank { self.old.bank ≡ bank.now.id }
        requires scratch { scratch.old ≡ bank.now.slots }
        requires sound { AreSound bank.now.slots hits.now }
        ensures counted { IfOk result (λ epoch. (self.new ≡ with_run self.old epoch hits.now) × Follows self.old epoch) }
        ensures refused { OnErr result (self.new ≡ self.old) }
        ensures spent { IsErr result ↔ (self.old.quota < length self.old.entries + length hits.now) }
        ensures scratch { scratch.new ≡ scratch.old }
    {
        if hits.len() > self.left as usize {
            return Err(Spent);
        }
        if hits.is_empty() {
            return Ok(glance(&bank.table, &mut self.seat));
        }
        let epoch = count_hits::<Brand>(
            &bank.table,
            &mut self.seat,
            hits,
            scratch.cells.as_mut_slice(),
        );
        self.left -= hits.len() as u32;
        Ok(epoch)
    }

    /// One event arrives, and is to be finished. A pass with nothing left is handed back.
    pub fn begin(self, bank: &Bank) -> Result<Visit, Pass>
        requires { self.bank ≡ bank.now.id }
        ensures begun { MatchResult result (λ visit. (visit.pass ≡ self) × Follows self visit.epoch) (λ pass. pass ≡ self) }
        ensures spent { IsErr result ↔ (length self.entries ≡ self.quota) }
    {
        if self.left == 0 {
            return Err(self);
        }
        let Pass {
            mut seat,
            since,
            quota,
            left,
        } = self;
        let epoch = arrive(&bank.table, &mut seat, 1);
        Ok(Visit::of(seat, since, quota, left - 1, epoch))
    }
}
