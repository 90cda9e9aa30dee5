//! Slots found in memory.

use super::*;
use pm_inventory::Inventory;
use pm_meas::Reduce;
use std::test::Fail;

#[test]
fn a_slot_is_found_by_its_names(rt: HostRuntime) -> Result<(), Fail> {
    let inventory = Inventory::default(rt.alloc())?;
    let table = SlotTable::new(rt.alloc(), &inventory)?;
    assert_eq!(rt; table.len(), 15);
    let cases: [(&[u8], Option<u16>); 5] = [
        (
            b"ManagedElement=ME1,GNBCUCPFunction=1,NRCellCU=7 RRC.ConnEstabAtt.mo-Data",
            Some(0),
        ),
        (
            b"ManagedElement=ME1,GNBCUCPFunction=1,NRCellCU=8 RRC.ConnEstabAtt.mo-Data",
            Some(1),
        ),
        (
            b"ManagedElement=ME1,GNBDUFunction=1,NRCellDU=7 VS.SetupTime",
            Some(14),
        ),
        (
            b"ManagedElement=ME1,GNBDUFunction=1,NRCellDU=7 RRC.ConnMax",
            None,
        ),
        (b"VS.SetupTime", None),
    ];
    for (names, want) in cases {
        assert_eq!(rt; table.find(names), want, "at {names:?}");
    }
    assert_eq!(rt;
        table.names(14),
        b"ManagedElement=ME1,GNBDUFunction=1,NRCellDU=7 VS.SetupTime".as_slice()
    );
    assert_eq!(rt;
        (table.registers_each(13), table.registers_each(14)),
        (1, 3)
    );
    assert_eq!(rt; table.reduce(14), Reduce::Mean);
    Ok(())
}
