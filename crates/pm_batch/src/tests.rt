//! Worked batches over the default inventory.

use super::*;
use pm_base::Code;
use pm_inventory::Inventory;
use pm_meas::Cell;
use std::test::Fail;

#[test]
fn each_third_event_is_registered_over_batches(rt: HostRuntime) -> Result<(), Fail> {
    let inventory = Inventory::default(rt.alloc())?;
    let mut events = OpenEvents::new(rt.alloc(), &inventory)?;
    let first = b"ManagedElement=ME1,GNBDUFunction=1,NRCellDU=7 VS.SetupTime 10\n\
ManagedElement=ME1,GNBDUFunction=1,NRCellDU=7 VS.SetupTime 20\n\
ManagedElement=ME1,GNBDUFunction=1,NRCellDU=7 VS.SetupTime 30\n\
ManagedElement=ME1,GNBDUFunction=1,NRCellDU=7 VS.SetupTime 40\n";
    let second = b"ManagedElement=ME1,GNBDUFunction=1,NRCellDU=7 VS.SetupTime 50\n\
ManagedElement=ME1,GNBDUFunction=1,NRCellDU=7 VS.SetupTime 60";
    assert_eq!(rt; events.read(first.as_slice()), Ok(4));
    events.count();
    assert_eq!(rt;
        last_cell(&events),
        Some(Cell {
            n: 1,
            sum: 30,
            max: 30,
            min: 30
        })
    );
    assert_eq!(rt; events.read(second.as_slice()), Ok(2));
    events.count();
    assert_eq!(rt;
        last_cell(&events),
        Some(Cell {
            n: 2,
            sum: 90,
            max: 60,
            min: 30
        })
    );
    events.clear();
    assert_eq!(rt; last_cell(&events), Some(Cell::empty()));
    Ok(())
}

#[test]
fn the_first_refused_line_is_told(rt: HostRuntime) -> Result<(), Fail> {
    let inventory = Inventory::default(rt.alloc())?;
    let mut events = OpenEvents::new(rt.alloc(), &inventory)?;
    let cases: [(&[u8], u32, Code); 5] = [
        (
            b"ManagedElement=ME1,GNBDUFunction=1,NRCellDU=7 VS.QueueLow 1\nManagedElement=ME1 VS.QueueLow\nx y z",
            2,
            Code::E1,
        ),
        (b"ManagedElement=ME1 VS.QueueLow 1", 1, Code::E2),
        (
            b"ManagedElement=ME1,GNBDUFunction=1,NRCellDU=7 VS.QueueLow 1048576\n",
            1,
            Code::E3,
        ),
        (
            b"ManagedElement=ME1,GNBDUFunction=1,NRCellDU=7 VS.QueueLow 00000000001",
            1,
            Code::E1,
        ),
        (b"\n", 1, Code::E1),
    ];
    for (body, line, code) in cases {
        assert_eq!(rt;
            events.read(body),
            Err(BatchError::Refused { line, code }),
            "at {body:?}"
        );
    }
    assert_eq!(rt; events.read(b"".as_slice()), Ok(0));
    assert_eq!(rt; last_cell(&events), Some(Cell::empty()));
    Ok(())
}

fn last_cell(events: &OpenEvents) -> Option<Cell> {
    events.cells().last().copied()
}
