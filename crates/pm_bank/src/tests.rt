//! The calls of a bank, one after the other.
use crate::{Bank, BankError, Draining, HireError, Hit, Scratch};
use pm_meas::{Cell, Tally};
use std::alloc::AllocError;

#[test]
fn a_bank_is_refused_by_its_slots_and_then_by_its_workers(rt: HostRuntime) {
    let alloc = rt.alloc();
    let cases: [(u32, u32, BankError); 4] = [
        (0, 1, BankError::B1),
        (4097, 65, BankError::B1),
        (1, 0, BankError::B2),
        (4096, 65, BankError::B2),
    ];
    for (slots, workers, want) in cases {
        assert_eq!(rt;
            Bank::new(alloc, slots, workers).err(),
            Some(want),
            "{slots} and {workers}"
        );
    }
    assert!(rt; Bank::new(alloc, 4096, 64).is_ok());
}

#[test]
fn a_third_pass_and_one_event_too_many_are_refused(rt: HostRuntime) {
    let (bank, mut keeper) = Bank::new(rt.alloc(), 1, 2).expect(&rt, "no room");
    let one = keeper.hire(&bank, 1_073_741_824).expect(&rt, "refused");
    assert_eq!(rt; keeper.hire(&bank, 1).err(), Some(HireError::B4));
    let two = keeper.hire(&bank, 0).expect(&rt, "refused");
    assert_eq!(rt; keeper.hire(&bank, 1).err(), Some(HireError::B3));
    keeper.meet(&bank, two);
    assert_eq!(rt; keeper.out(), 1);
    assert_eq!(rt; keeper.granted(), 1_073_741_824);
    keeper.meet(&bank, one);
    assert_eq!(rt; keeper.granted(), 0);
}

#[test]
fn a_visit_that_is_open_at_a_flip_drains(rt: HostRuntime) -> Result<(), AllocError> {
    let (bank, mut keeper) = Bank::new(rt.alloc(), 1, 2).expect(&rt, "no room");
    let mut tally = Tally::new(rt.alloc(), 1)?;
    let mut one = keeper.hire(&bank, 1).expect(&rt, "refused");
    let two = keeper.hire(&bank, 9).expect(&rt, "refused");
    assert_eq!(rt; one.count(&bank, 0, 7).ok(), Some(0));
    assert!(rt; one.count(&bank, 0, 7).is_err());
    let Ok(visit) = two.begin(&bank) else {
        panic!(rt; "refused");
    };
    assert_eq!(rt; visit.epoch(), 0);
    let cut = keeper.flip(&bank);
    assert_eq!(rt; (cut.epoch, cut.arrived), (0, 2));
    assert_eq!(rt;
        keeper.take(&bank, &mut tally),
        Err(Draining {
            arrived: 2,
            left: 1
        })
    );
    let two = visit.finish(&bank, 0, 3);
    assert_eq!(rt; keeper.take(&bank, &mut tally), Ok(()));
    let want = Cell {
        n: 2,
        sum: 10,
        max: 7,
        min: 3,
    };
    assert_eq!(rt; tally.get(0), want);
    assert_eq!(rt; two.left(), 8);
    Ok(())
}

#[test]
fn a_dropped_visit_is_out_for_good(rt: HostRuntime) -> Result<(), AllocError> {
    let (bank, mut keeper) = Bank::new(rt.alloc(), 1, 2).expect(&rt, "no room");
    let mut tally = Tally::new(rt.alloc(), 1)?;
    let lost = keeper.hire(&bank, 2).expect(&rt, "refused");
    {
        let _visit = lost.begin(&bank);
    }
    assert_eq!(rt; keeper.out(), 1);
    assert_eq!(rt; keeper.flip(&bank).arrived, 1);
    let drains = keeper.take(&bank, &mut tally);
    assert_eq!(rt;
        drains,
        Err(Draining {
            arrived: 1,
            left: 0
        })
    );
    let again = keeper.take(&bank, &mut tally);
    assert_eq!(rt;
        again,
        Err(Draining {
            arrived: 1,
            left: 0
        })
    );
    let mut second = keeper.hire(&bank, 1).expect(&rt, "refused");
    assert_eq!(rt; second.count(&bank, 0, 4).ok(), Some(1));
    assert_eq!(rt; keeper.hire(&bank, 1).err(), Some(HireError::B3));
    Ok(())
}

#[test]
fn a_pass_counts_on_in_the_next_epoch(rt: HostRuntime) -> Result<(), AllocError> {
    let (bank, mut keeper) = Bank::new(rt.alloc(), 1, 2).expect(&rt, "no room");
    let mut tally = Tally::new(rt.alloc(), 1)?;
    let mut pass = keeper.hire(&bank, 3).expect(&rt, "refused");
    assert_eq!(rt; pass.count(&bank, 0, 5).ok(), Some(0));
    let cut = keeper.flip(&bank);
    assert_eq!(rt; (cut.epoch, cut.arrived), (0, 1));
    assert_eq!(rt; keeper.take(&bank, &mut tally), Ok(()));
    assert_eq!(rt; (tally.get(0).n, tally.get(0).sum), (1, 5));
    assert_eq!(rt; pass.count(&bank, 0, 6).ok(), Some(1));
    assert_eq!(rt; pass.left(), 1);
    let cut = keeper.flip(&bank);
    assert_eq!(rt; (cut.epoch, cut.arrived), (1, 1));
    assert_eq!(rt; keeper.take(&bank, &mut tally), Ok(()));
    assert_eq!(rt; (tally.get(0).n, tally.get(0).sum), (1, 6));
    keeper.meet(&bank, pass);
    assert_eq!(rt; (keeper.out(), keeper.granted()), (0, 2));
    Ok(())
}

#[test]
fn every_third_event_of_a_slot_is_registered(rt: HostRuntime) -> Result<(), AllocError> {
    let alloc = rt.alloc();
    let (bank, mut keeper) = Bank::new(alloc, 2, 1).expect(&rt, "no room");
    let mut tally = Tally::new(alloc, 2)?;
    let mut scratch = Scratch::new(alloc, 2)?;
    let mut pass = keeper.hire(&bank, 4).expect(&rt, "refused");
    let hits = [
        Hit { slot: 1, value: 5 },
        Hit { slot: 0, value: 2 },
        Hit { slot: 1, value: 4 },
        Hit { slot: 0, value: 8 },
    ];
    let mut start = [0u64, 1];
    let epoch = pass.count_registered(&bank, &hits, &[1, 3], &mut start, 3, &mut scratch);
    assert_eq!(rt; epoch.ok(), Some(0));
    assert_eq!(rt; start, [2, 3]);
    assert_eq!(rt; keeper.flip(&bank).arrived, 3);
    assert_eq!(rt; keeper.take(&bank, &mut tally), Ok(()));
    assert_eq!(rt;
        (tally.get(0).n, tally.get(0).max, tally.get(0).min),
        (2, 8, 2)
    );
    assert_eq!(rt; (tally.get(1).n, tally.get(1).sum), (1, 4));
    assert!(rt; pass.count_run(&bank, &hits, &mut scratch).is_err());
    assert_eq!(rt; pass.count_run(&bank, &[], &mut scratch).ok(), Some(1));
    Ok(())
}
