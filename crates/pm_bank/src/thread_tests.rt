//! The calls of a bank from several threads at once.
ghost use Rattle.std.specs.Prelude.{◌≡◌, ℕ, ◌+◌, ◌<◌, ◌≤◌, true, false, length, IfOk, IsSome, None};
ghost use Rattle.pm_bank.specs.Entries.{AreSound};

use crate::{Bank, Hit, Keeper, Pass, Scratch};
use pm_meas::{Cell, Tally};
use std::alloc::{AllocError, Global};
use std::thread::{Threads, join};

/// A run of 1,000 events over four slots, with the values 0 to 999.
fn thousand(alloc: Global) -> Result<Vec<Hit>, AllocError>
    ensures { IfOk result (λ hits. AreSound 4 hits.items) }
{
    let mut hits = Vec::new(alloc);
    for i in 0..1000u32 {
        hits.push(Hit {
            slot: i % 4,
            value: i,
        })?;
    }
    Ok(hits)
}

/// Counts the run so often, and then as many single events with the same values. Answers how many calls were refused besides.
fn work(bank: &Bank, mut pass: Pass, hits: &[Hit], mut scratch: Scratch, times: u32) -> (Pass, u32)
    requires tie { pass.bank ≡ bank.now.id }
    requires slots { (bank.now.slots ≡ 4) × (scratch ≡ 4) }
    requires sound { AreSound 4 hits.now }
    ensures { result.0.bank ≡ bank.now.id }
{
    let mut refused = 0u32;
    'runs: for _ in 0..times {
        if pass.count_run(bank, hits, &mut scratch).is_err() {
            refused = refused.wrapping_add(1);
        }
    }
    'events: for i in 0..times as u64 * 1000 {
        let value = (i % 1000) as u32;
        if pass.count(bank, value % 4, value).is_err() {
            refused = refused.wrapping_add(1);
        }
    }
    (pass, refused)
}

/// Two workers at once. Answers their passes, and how many calls were refused.
fn both<R: Threads + Sync>(
    rt: &R,
    bank: &Bank,
    passes: (Pass, Pass),
    hits: &[Hit],
    scratches: (Scratch, Scratch),
) -> (Pass, Pass, u32)
    requires tie { (passes.0.bank ≡ bank.now.id) × (passes.1.bank ≡ bank.now.id) }
    requires slots { (bank.now.slots ≡ 4) × (scratches.0 ≡ 4) × (scratches.1 ≡ 4) }
    requires sound { AreSound 4 hits.now }
    ensures { (result.0.bank ≡ bank.now.id) × (result.1.bank ≡ bank.now.id) }
{
    let (one, two) = passes;
    let (first, second) = scratches;
    let (a, b) = join(
        rt,
        || work(bank, one, hits, first, 50),
        || work(bank, two, hits, second, 50),
    );
    (a.0, b.0, a.1.wrapping_add(b.1))
}

/// The fold of what the workers count into a slot, one event after the other.
fn plain_cell(slot: u32) -> Cell {
    let mut cell = Cell::empty();
    for i in 0..200_000u32 {
        let value = i % 1000;
        if value % 4 == slot {
            cell.n = cell.n.wrapping_add(1);
            cell.sum = cell.sum.wrapping_add(value as u64);
            cell.max = cell.max.max(value);
            cell.min = cell.min.min(value);
        }
    }
    cell
}

#[test]
fn two_workers_count_what_one_would(rt: HostRuntime) -> Result<(), AllocError> {
    let alloc = rt.alloc();
    let (bank, mut keeper) = Bank::new(alloc, 4, 2).expect(&rt, "no room");
    let one = keeper.hire(&bank, 100_000).expect(&rt, "refused");
    let two = keeper.hire(&bank, 100_000).expect(&rt, "refused");
    let hits = thousand(alloc)?;
    let scratches = (Scratch::new(alloc, 4)?, Scratch::new(alloc, 4)?);
    let (one, two, refused) = both(&rt, &bank, (one, two), hits.as_slice(), scratches);
    assert_eq!(rt; refused, 0);
    assert_eq!(rt; keeper.flip(&bank).arrived, 200_000);
    let mut tally = Tally::new(alloc, 4)?;
    assert_eq!(rt; keeper.take(&bank, &mut tally), Ok(()));
    assert_eq!(rt; tally.get(0), plain_cell(0));
    assert_eq!(rt; tally.get(1), plain_cell(1));
    assert_eq!(rt; tally.get(2), plain_cell(2));
    assert_eq!(rt; tally.get(3), plain_cell(3));
    keeper.meet(&bank, one);
    keeper.meet(&bank, two);
    assert_eq!(rt; keeper.out(), 0);
    Ok(())
}

/// Begins and finishes so many visits.
fn visit(bank: &Bank, mut pass: Pass, times: u32) -> Pass
    requires tie { pass.bank ≡ bank.now.id }
    requires slots { bank.now.slots ≡ 1 }
    ensures { result.bank ≡ bank.now.id }
{
    'visits: for i in 0..times {
        pass = match pass.begin(bank) {
            Ok(visit) => visit.finish(bank, 0, i % 1000),
            Err(spent) => spent,
        };
    }
    pass
}

/// Takes the ended epoch, and adds the number of its events. Whether it is still to be taken.
fn take_one(bank: &Bank, keeper: &mut Keeper, tally: &mut Tally, events: &mut u64) -> bool
    requires tie { keeper.old.bank ≡ bank.now.id }
    requires slots { (bank.now.slots ≡ 1) × (length tally.old ≡ 1) }
    requires ended { IsSome keeper.old.pending }
    ensures tie { (keeper.new.bank ≡ bank.now.id) × (keeper.new.epoch ≡ keeper.old.epoch) × (length tally.new ≡ 1) }
    ensures ended { result ≡ true → IsSome keeper.new.pending }
    ensures taken { result ≡ false → keeper.new.pending ≡ None }
{
    match keeper.take(bank, tally) {
        Ok(()) => {
            *events = events.wrapping_add(tally.get(0).n);
            false
        }
        Err(_) => true,
    }
}

/// What a keeper has taken, and whether an ended epoch is still to be taken.
#[derive(Drop)]
struct Drained {
    keeper: Keeper,
    tally: Tally,
    events: u64,
    ended: bool,
}

/// Ends an epoch and takes it, so often, and passes over each take that drains.
fn drain(bank: &Bank, mut keeper: Keeper, mut tally: Tally, times: u32) -> Drained
    requires tie { keeper.bank ≡ bank.now.id }
    requires slots { (bank.now.slots ≡ 1) × (length tally ≡ 1) }
    requires taken { (keeper.pending ≡ None) × (keeper.epoch ≡ 0) }
    requires times { times ≤ 1000000 }
    ensures tie { (result.keeper.bank ≡ bank.now.id) × (length result.tally ≡ 1) × (result.keeper.epoch ≤ 1000000) }
    ensures ended { result.ended ≡ true → IsSome result.keeper.pending }
    ensures taken { result.ended ≡ false → result.keeper.pending ≡ None }
{
    let mut events = 0;
    let mut ended = false;
    'turns: for _ in 0..times {
        ended = turn(bank, &mut keeper, &mut tally, &mut events, ended);
    }
    Drained {
        keeper,
        tally,
        events,
        ended,
    }
}

/// Ends the epoch if the one before is taken, and takes what is ended.
fn turn(bank: &Bank, keeper: &mut Keeper, tally: &mut Tally, events: &mut u64, ended: bool) -> bool
    requires tie { keeper.old.bank ≡ bank.now.id }
    requires slots { (bank.now.slots ≡ 1) × (length tally.old ≡ 1) }
    requires ended { ended ≡ true → IsSome keeper.old.pending }
    requires taken { ended ≡ false → keeper.old.pending ≡ None }
    requires epoch { keeper.old.epoch < 4294967295 }
    ensures tie { (keeper.new.bank ≡ bank.now.id) × (keeper.new.epoch ≤ keeper.old.epoch + 1) × (length tally.new ≡ 1) }
    ensures ended { result ≡ true → IsSome keeper.new.pending }
    ensures taken { result ≡ false → keeper.new.pending ≡ None }
{
    if !ended {
        keeper.flip(bank);
    }
    take_one(bank, keeper, tally, events)
}

/// One side visits the bank, and the other ends and takes epochs.
fn at_once<R: Threads + Sync>(
    rt: &R,
    bank: &Bank,
    pass: Pass,
    keeper: Keeper,
    tally: Tally,
) -> (Pass, Drained)
    requires tie { (pass.bank ≡ bank.now.id) × (keeper.bank ≡ bank.now.id) }
    requires slots { (bank.now.slots ≡ 1) × (length tally ≡ 1) }
    requires taken { (keeper.pending ≡ None) × (keeper.epoch ≡ 0) }
    ensures tie { (result.0.bank ≡ bank.now.id) × (result.1.keeper.bank ≡ bank.now.id) × (length result.1.tally ≡ 1) × (result.1.keeper.epoch ≤ 1000000) }
    ensures ended { result.1.ended ≡ true → IsSome result.1.keeper.pending }
    ensures taken { result.1.ended ≡ false → result.1.keeper.pending ≡ None }
{
    join(
        rt,
        || visit(bank, pass, 10_000),
        || drain(bank, keeper, tally, 10_000),
    )
}

#[test]
fn epochs_end_while_visits_are_open_and_no_event_is_lost(
    rt: HostRuntime,
) -> Result<(), AllocError> {
    let alloc = rt.alloc();
    let (bank, mut keeper) = Bank::new(alloc, 1, 1).expect(&rt, "no room");
    let pass = keeper.hire(&bank, 10_000).expect(&rt, "refused");
    let tally = Tally::new(alloc, 1)?;
    let (pass, drained) = at_once(&rt, &bank, pass, keeper, tally);
    let Drained {
        mut keeper,
        mut tally,
        mut events,
        ended,
    } = drained;
    keeper.meet(&bank, pass);
    assert_eq!(rt; keeper.out(), 0);
    let drains = turn(&bank, &mut keeper, &mut tally, &mut events, ended);
    assert!(rt; !drains);
    let drains = turn(&bank, &mut keeper, &mut tally, &mut events, drains);
    assert!(rt; !drains);
    assert_eq!(rt; events, 10_000);
    Ok(())
}
