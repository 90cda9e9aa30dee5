use crate::{Ledger, OpenError};
use pm_disk::{Area, Disk, MemDisk};
use pm_store::Item1;
use std::process::Abort;
use std::test::Fail;

/// That a job was deleted.
const DELETED: &[u8] = b"\x05\0\0\0\0\x65\x53\xee\x1c\x04job1";

#[test]
fn an_item_that_is_added_is_told_at_the_next_opening(rt: HostRuntime) -> Result<(), Fail> {
    let mut disk = MemDisk::new(rt.alloc(), 1000, &[])?;
    let mut ledger = Ledger::open(rt.alloc(), &mut disk)?;
    if ledger.next(&mut disk)?.is_some() {
        return Err(Fail::from("a fresh store has no item"));
    }
    ledger.add(&mut disk, DELETED)?;
    let mut ledger = Ledger::open(rt.alloc(), &mut disk)?;
    match ledger.next(&mut disk)? {
        Some(Item1::JobDeleted { moment, id }) => {
            assert_eq!(rt;
                (moment, id.as_bytes()),
                (1_699_999_260, b"job1".as_slice())
            );
        }
        _ => return Err(Fail::from("it is the item that was added")),
    }
    assert!(rt; ledger.next(&mut disk)?.is_none());
    Ok(())
}

#[test]
fn an_item_of_no_kind_is_garbled_at_its_gate(rt: HostRuntime) -> Result<(), Fail> {
    let mut disk = MemDisk::new(rt.alloc(), 1000, &[])?;
    let mut ledger = Ledger::open(rt.alloc(), &mut disk)?;
    if ledger.next(&mut disk)?.is_some() {
        return Err(Fail::from("a fresh store has no item"));
    }
    ledger.add(&mut disk, b"what")?;
    let mut ledger = Ledger::open(rt.alloc(), &mut disk)?;
    assert_eq!(rt;
        ledger.next(&mut disk).err(),
        Some(OpenError::Garbled { offset: 8 })
    );
    Ok(())
}
