//! Inventories in memory.

use super::*;
use pm_base::Code;
use pm_dn::Tree;
use pm_meas::Catalogue;
use pm_outside::{Feed, Line, MemSource};
use std::alloc::{AllocError, Global};
use std::test::Fail;

const LISTING: &[u8] = b"object ManagedElement=ME1
object ManagedElement=ME1,GNBCUCPFunction=1
object ManagedElement=ME1,GNBCUCPFunction=1,NRCellCU=7
object ManagedElement=ME1,GNBCUCPFunction=1,NRCellCU=8
object ManagedElement=ME1,GNBDUFunction=1
object ManagedElement=ME1,GNBDUFunction=1,NRCellDU=7
measure RRC.ConnEstabAtt.mo-Data NRCellCU CC SUM
measure RRC.ConnEstabAtt.mo-Signalling NRCellCU CC SUM
measure RRC.ConnEstabSucc.mo-Data NRCellCU CC SUM
measure RRC.ConnEstabSucc.mo-Signalling NRCellCU CC SUM
measure RRC.ConnMean NRCellCU SI MEAN
measure RRC.ConnMax NRCellCU SI MAX
measure VS.QueueLength NRCellDU GAUGE MEAN
measure VS.QueueLow NRCellDU GAUGE MIN
measure VS.SetupTime NRCellDU DER MEAN 3
end
";

#[test]
fn the_default_inventory_has_15_slots_and_its_text(rt: HostRuntime) -> Result<(), Fail> {
    let inventory = Inventory::default(rt.alloc())?;
    assert_eq!(rt; inventory.text(rt.alloc())?.as_bytes(), LISTING);
    assert_eq!(rt; inventory.tree().len(), 6);
    assert_eq!(rt; inventory.catalogue().len(), 9);
    assert_eq!(rt; inventory.slots(), 15);
    // (object, metric, slot)
    let cases: [(u16, u8, Option<u16>); 14] = [
        (2, 0, Some(0)),
        (3, 0, Some(1)),
        (2, 1, Some(2)),
        (3, 1, Some(3)),
        (2, 5, Some(10)),
        (3, 5, Some(11)),
        (5, 6, Some(12)),
        (5, 8, Some(14)),
        (0, 0, None),
        (1, 0, None),
        (5, 0, None),
        (2, 6, None),
        (6, 0, None),
        (2, 9, None),
    ];
    for (object, metric, want) in cases {
        assert_eq!(rt;
            inventory.slot(object, metric),
            want,
            "at {object} and {metric}"
        );
    }
    Ok(())
}

#[test]
fn an_inventory_without_a_root_or_a_slot_is_refused(rt: HostRuntime) {
    // (whether a ManagedElement stands, the one measurement, answer)
    let cases: [(bool, &[u8], Option<InvError>); 4] = [
        (false, b"A.b ManagedElement CC SUM", Some(InvError::N10)),
        (false, b"A.b NRCellCU CC SUM", Some(InvError::N10)),
        (true, b"A.b NRCellCU CC SUM", Some(InvError::M5)),
        (true, b"A.b ManagedElement CC SUM", None),
    ];
    for (root, words, want) in cases {
        let mut tree = Tree::new(rt.alloc());
        if root {
            assert!(rt; tree.add(b"ManagedElement=ME1").is_ok());
        }
        let mut catalogue = Catalogue::new(rt.alloc());
        assert!(rt; catalogue.add(words).is_ok());
        let answer = Inventory::finish(rt.alloc(), tree, catalogue).err();
        assert_eq!(rt; answer, want, "at {words:?}");
    }
}

#[test]
fn a_line_is_refused_by_the_first_rule_broken(rt: HostRuntime) {
    let mut tree = Tree::new(rt.alloc());
    let mut catalogue = Catalogue::new(rt.alloc());
    let cases: [(&[u8], Option<LineError>); 15] = [
        (
            b"measure RRC NRCellCU CC SUM",
            Some(LineError::Refused(Code::M1)),
        ),
        (
            b"measure A.b NRCellCU CC MEAN",
            Some(LineError::Refused(Code::M2)),
        ),
        (b"measure A.b NRCellCU CC SUM", None),
        (
            b"measure A.b NRCellCU CC SUM",
            Some(LineError::Refused(Code::M3)),
        ),
        (
            b"measure  A.c NRCellCU CC SUM",
            Some(LineError::Refused(Code::M1)),
        ),
        (b"measure A.c NRCellCU", Some(LineError::Refused(Code::I1))),
        (b"measure", Some(LineError::Refused(Code::I1))),
        (b"objects x", Some(LineError::Refused(Code::I1))),
        (b"object", Some(LineError::Refused(Code::I1))),
        (b"", Some(LineError::Refused(Code::I1))),
        (b"object ", Some(LineError::Refused(Code::N1))),
        (b"object NRCellCU=7", Some(LineError::Refused(Code::N6))),
        (b"object ManagedElement=ME1", None),
        (
            b"object ManagedElement=ME1",
            Some(LineError::Refused(Code::N8)),
        ),
        (
            b"object ManagedElement=ME2",
            Some(LineError::Refused(Code::N10)),
        ),
    ];
    for (line, want) in cases {
        let answer = take_line(&mut tree, &mut catalogue, line).err();
        assert_eq!(rt; answer, want, "at {line:?}");
    }
    assert_eq!(rt; tree.len(), 1);
    assert_eq!(rt; catalogue.len(), 1);
}

#[test]
fn as_many_as_4096_slots_are_taken(rt: HostRuntime) -> Result<(), Fail> {
    // 64 measurements of 64 cells, and then of 65.
    for (cells, want) in [(64, None), (65, Some(InvError::M5))] {
        let mut tree = Tree::new(rt.alloc());
        assert!(rt; tree.add(b"ManagedElement=ME1").is_ok());
        assert!(rt; tree.add(b"ManagedElement=ME1,GNBDUFunction=1").is_ok());
        for cell in 0..cells {
            let name = format!(in rt.alloc();
                "ManagedElement=ME1,GNBDUFunction=1,NRCellDU={cell}"
            )?;
            assert!(rt; tree.add(name.as_bytes()).is_ok());
        }
        let mut catalogue = Catalogue::new(rt.alloc());
        for metric in 0..64 {
            let words = format!(in rt.alloc(); "A.b{metric} NRCellDU CC SUM")?;
            assert!(rt; catalogue.add(words.as_bytes()).is_ok());
        }
        match Inventory::finish(rt.alloc(), tree, catalogue) {
            Ok(inventory) => {
                assert_eq!(rt; want, None);
                assert_eq!(rt; inventory.slots(), 4_096);
                assert_eq!(rt; inventory.slot(65, 63), Some(4_095));
            }
            Err(code) => assert_eq!(rt; Some(code), want),
        }
    }
    Ok(())
}

// The number and the code of the first line that is refused; none where an inventory is read.
fn refusal(alloc: Global, bytes: &[u8]) -> Result<Option<(u64, Code)>, AllocError> {
    let mut source = MemSource::new(alloc, bytes, &[])?;
    let mut feed = Feed::new(alloc)?;
    match read_inventory(alloc, &mut feed, &mut source) {
        Ok(_) => Ok(None),
        Err(InventoryError::Refused { line, code }) => Ok(Some((line, code))),
        Err(_) => Err(AllocError),
    }
}

#[test]
fn an_inventory_is_refused_at_its_first_bad_line(rt: HostRuntime) -> Result<(), Fail> {
    let cases: [(&[u8], Option<(u64, Code)>); 12] = [
        (b"end", None),
        (b"measure RRC NRCellCU CC SUM\nend\n", Some((1, Code::M1))),
        (b"measure A.b NRCellCU CC MEAN\nend\n", Some((1, Code::M2))),
        (
            b"measure A.b NRCellCU CC SUM\nmeasure A.b NRCellDU SI MAX\n",
            Some((2, Code::M3)),
        ),
        (b"objects x\n", Some((1, Code::I1))),
        (b"end \n", Some((1, Code::I1))),
        (b"object ManagedElement=ME1\nend\n", Some((2, Code::M5))),
        (b"measure A.b NRCellCU CC SUM\nend\n", Some((2, Code::N10))),
        (b"object ManagedElement=ME1\n\nend\n", Some((2, Code::I1))),
        (b"", Some((1, Code::I2))),
        (b"object ManagedElement=ME1", Some((2, Code::I2))),
        (
            b"measure A.b ManagedElement CC SUM\nobject ManagedElement=ME1\nend",
            None,
        ),
    ];
    for (bytes, want) in cases {
        assert_eq!(rt; refusal(rt.alloc(), bytes)?, want, "at {bytes:?}");
    }
    assert_eq!(rt; refusal(rt.alloc(), &[b'e'; 2049])?, Some((1, Code::I1)));
    Ok(())
}

#[test]
fn an_inventory_is_read_up_to_its_end(rt: HostRuntime) -> Result<(), Fail> {
    let mut source = MemSource::new(rt.alloc(), b"end\n12 x", &[])?;
    let mut feed = Feed::new(rt.alloc())?;
    let read = read_inventory(rt.alloc(), &mut feed, &mut source)?;
    assert_eq!(rt; read.lines, 1);
    assert_eq!(rt; read.inventory.text(rt.alloc())?.as_bytes(), LISTING);
    assert_eq!(rt; feed.line(&mut source), Ok(Line::Whole { length: 4 }));

    let mut source = MemSource::new(rt.alloc(), LISTING, &[])?;
    let mut feed = Feed::new(rt.alloc())?;
    let read = read_inventory(rt.alloc(), &mut feed, &mut source)?;
    assert_eq!(rt; read.lines, 16);
    assert_eq!(rt; read.inventory.text(rt.alloc())?.as_bytes(), LISTING);
    Ok(())
}
