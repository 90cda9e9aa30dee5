//! Names and trees in memory.

use super::*;
use pm_base::Class;
use std::alloc::Global;
use std::process::Abort;
use std::test::Fail;

const CELL: &[u8] = b"ManagedElement=ME1,GNBCUCPFunction=1,NRCellCU=7";

#[test]
fn a_name_is_refused_by_the_first_rule_broken(rt: HostRuntime) -> Result<(), Fail> {
    let cases: [(&[u8], Option<DnError>); 25] = [
        (b"", Some(DnError::N1)),
        (b"ManagedElement", Some(DnError::N2)),
        (b"ManagedElement=M E", Some(DnError::N3)),
        (b"A=1,,B=2", Some(DnError::N1)),
        (b"A=1,", Some(DnError::N1)),
        (b",A=1", Some(DnError::N1)),
        (b"=1", Some(DnError::N1)),
        (b"A=", Some(DnError::N1)),
        (b"=", Some(DnError::N1)),
        (b"A=1=2", Some(DnError::N3)),
        (b"1A=1", Some(DnError::N3)),
        (b"A.b=1", Some(DnError::N3)),
        (b"A-b=1", Some(DnError::N3)),
        (b"A=1_2", Some(DnError::N3)),
        (b"A=\xc3\xa4", Some(DnError::N3)),
        (b"A=1 ,B", Some(DnError::N3)),
        (b"A,B=_", Some(DnError::N2)),
        (b"A=1,A=1,A=1,A=1,A=1,A=1,A=1,A=1,A=1", Some(DnError::N5)),
        (b"A=1,A=1,A=1,A=1,A=1,A=1,A=1,A=1,A", Some(DnError::N2)),
        (b"A=1,A=1,A=1,A=1,A=1,A=1,A=1,A=1", None),
        (b"A1=.-", None),
        (b"z9=Z.0-", None),
        (b"ManagedElement=ME1", None),
        (b"A=1,A=1", None),
        (CELL, None),
    ];
    for (name, want) in cases {
        assert_eq!(rt; Dn::check(name).err(), want, "at {name:?}");
        assert_eq!(rt;
            plain::name_refusal(rt.alloc(), name)?,
            want,
            "plainly at {name:?}"
        );
        match Dn::read(rt.alloc(), name) {
            Ok(read) => assert_eq!(rt; read.write(rt.alloc())?.as_bytes(), name),
            Err(code) => assert_eq!(rt; Some(code), want, "read at {name:?}"),
        }
    }
    Ok(())
}

#[test]
fn each_limit_is_permitted_and_one_more_is_not(rt: HostRuntime) -> Result<(), Fail> {
    // (bytes of the class, bytes of the id, answer)
    let parts = [
        (64, 64, None),
        (65, 64, Some(DnError::N4)),
        (64, 65, Some(DnError::N4)),
        (64, 191, Some(DnError::N4)),
        (64, 192, Some(DnError::N4)),
    ];
    for (class, id, want) in parts {
        let mut name = vec![in rt.alloc(); b'c'; class]?;
        name.push(b'=')?;
        name.extend_from_slice(vec![in rt.alloc(); b'9'; id]?.as_slice())?;
        assert_eq!(rt; Dn::check(&name).err(), want, "at {class} and {id}");
    }
    // The longest name: a class and an id of 64 bytes, eight parts, and 256 bytes in all.
    for (last, want) in [(16, None), (17, Some(DnError::N4))] {
        let mut name = vec![in rt.alloc(); b'c'; 64]?;
        name.push(b'=')?;
        name.extend_from_slice(vec![in rt.alloc(); b'9'; 64]?.as_slice())?;
        for _ in 0..6 {
            name.extend_from_slice(b",B=123456789012345")?;
        }
        name.extend_from_slice(b",B=")?;
        name.extend_from_slice(vec![in rt.alloc(); b'7'; last]?.as_slice())?;
        assert_eq!(rt; name.len(), 240 + last);
        assert_eq!(rt; Dn::check(&name).err(), want, "at {last}");
        assert_eq!(rt; Dn::read(rt.alloc(), &name).is_ok(), want.is_none());
    }
    // The length is looked at before the parts.
    assert_eq!(rt;
        Dn::check(&vec![in rt.alloc(); b','; 257]?).err(),
        Some(DnError::N4)
    );
    assert_eq!(rt;
        Dn::check(&vec![in rt.alloc(); b','; 256]?).err(),
        Some(DnError::N1)
    );
    Ok(())
}

/// The default inventory.
const OBJECTS_OF_A_BASE_STATION: [&[u8]; 6] = [
    b"ManagedElement=ME1",
    b"ManagedElement=ME1,GNBCUCPFunction=1",
    b"ManagedElement=ME1,GNBCUCPFunction=1,NRCellCU=7",
    b"ManagedElement=ME1,GNBCUCPFunction=1,NRCellCU=8",
    b"ManagedElement=ME1,GNBDUFunction=1",
    b"ManagedElement=ME1,GNBDUFunction=1,NRCellDU=7",
];

fn base_station(rt: &impl Abort, alloc: Global) -> Result<Tree, Fail> {
    let mut tree = Tree::new(alloc);
    for (number, name) in OBJECTS_OF_A_BASE_STATION.iter().enumerate() {
        assert_eq!(rt; tree.add(name).ok().map(usize::from), Some(number));
    }
    Ok(tree)
}

#[test]
fn a_tree_takes_an_object_or_refuses_it_by_the_first_rule_broken(
    rt: HostRuntime,
) -> Result<(), Fail> {
    let mut tree = Tree::new(rt.alloc());
    let cases: [(&[u8], Result<u16, TreeError>); 24] = [
        (b"NRCellCU=7", Err(TreeError::N6)),
        (CELL, Err(TreeError::N7)),
        (b"ManagedElement=ME1", Ok(0)),
        (b"ManagedElement=ME1", Err(TreeError::N8)),
        (b"ManagedElement=ME2", Err(TreeError::N10)),
        (CELL, Err(TreeError::N7)),
        (b"ManagedElement=ME1,GNBCUCPFunction=1", Ok(1)),
        (CELL, Ok(2)),
        (CELL, Err(TreeError::N8)),
        (
            b"ManagedElement=ME1,GNBCUCPFunction=2,NRCellCU=7",
            Err(TreeError::N7),
        ),
        (
            b"ManagedElement=ME2,GNBCUCPFunction=1,NRCellCU=7",
            Err(TreeError::N7),
        ),
        (b"ManagedElement=ME1,NRCellCU=7", Err(TreeError::N6)),
        (
            b"ManagedElement=ME1,GNBDUFunction=1,NRCellCU=7",
            Err(TreeError::N6),
        ),
        (
            b"ManagedElement=ME1,GNBCUCPFunction=1,NRCellDU=7",
            Err(TreeError::N6),
        ),
        (b"ManagedElement=ME1,ManagedElement=ME1", Err(TreeError::N6)),
        (
            b"ManagedElement=ME1,GNBCUCPFunction=1,NRCellCU=7,NRCellCU=7",
            Err(TreeError::N6),
        ),
        (b"managedelement=ME1", Err(TreeError::N6)),
        (b"ManagedElementX=ME1", Err(TreeError::N6)),
        (b"", Err(TreeError::N1)),
        (b"ManagedElement", Err(TreeError::N2)),
        (b"ManagedElement=M E", Err(TreeError::N3)),
        (b"A=1,A=1,A=1,A=1,A=1,A=1,A=1,A=1,A=1", Err(TreeError::N5)),
        (b"ManagedElement=ME1,GNBDUFunction=1", Ok(3)),
        (b"ManagedElement=ME1,GNBDUFunction=1,NRCellDU=7", Ok(4)),
    ];
    for (name, want) in cases {
        let before = tree.len();
        assert_eq!(rt; tree.add(name), want, "at {name:?}");
        assert_eq!(rt;
            tree.len(),
            before + u16::from(want.is_ok()),
            "after {name:?}"
        );
    }
    assert_eq!(rt;
        tree.add(&vec![in rt.alloc(); b','; 257]?),
        Err(TreeError::N4)
    );
    Ok(())
}

#[test]
fn an_object_has_its_number_text_and_class(rt: HostRuntime) -> Result<(), Fail> {
    let tree = base_station(&rt, rt.alloc())?;
    let classes = [
        Class::ManagedElement,
        Class::GnbCuCp,
        Class::NrCellCu,
        Class::NrCellCu,
        Class::GnbDu,
        Class::NrCellDu,
    ];
    assert_eq!(rt; tree.len(), 6);
    for (number, name) in OBJECTS_OF_A_BASE_STATION.iter().enumerate() {
        let object = number as u16;
        assert_eq!(rt; tree.find(name), Some(object));
        assert!(rt; object < tree.len());
        assert_eq!(rt; tree.text(object), *name);
        assert_eq!(rt; Some(tree.class(object)), classes.get(number).copied());
    }
    let absent: [&[u8]; 3] = [
        b"",
        b"ManagedElement=ME",
        b"ManagedElement=ME1,GNBCUCPFunction=1,NRCellCU=9",
    ];
    for name in absent {
        assert_eq!(rt; tree.find(name), None, "at {name:?}");
    }
    assert_eq!(rt; Tree::new(rt.alloc()).find(CELL), None);
    Ok(())
}

#[test]
fn a_subtree_goes_by_parts_and_a_class_by_its_path(rt: HostRuntime) -> Result<(), Fail> {
    let mut tree = base_station(&rt, rt.alloc())?;
    for name in [
        b"ManagedElement=ME1,GNBCUCPFunction=10".as_slice(),
        b"ManagedElement=ME1,GNBCUCPFunction=10,NRCellCU=7".as_slice(),
        b"ManagedElement=ME1,GNBCUCPFunction=1,NRCellCU=70".as_slice(),
    ] {
        assert!(rt; tree.add(name).is_ok(), "at {name:?}");
    }
    let below: [(u16, &[u16]); 9] = [
        (0, &[0, 1, 2, 3, 4, 5, 6, 7, 8]),
        (1, &[1, 2, 3, 8]),
        (2, &[2]),
        (3, &[3]),
        (4, &[4, 5]),
        (5, &[5]),
        (6, &[6, 7]),
        (7, &[7]),
        (8, &[8]),
    ];
    for (root, want) in below {
        assert!(rt; root < tree.len());
        assert_eq!(rt;
            tree.subtree(rt.alloc(), root)?.as_slice(),
            want,
            "below {root}"
        );
        assert_eq!(rt;
            plain::subtree_of(rt.alloc(), &tree, root)?.as_slice(),
            want,
            "plainly below {root}"
        );
    }
    let of_class: [(Class, &[u16]); 5] = [
        (Class::ManagedElement, &[0]),
        (Class::GnbCuCp, &[1, 6]),
        (Class::NrCellCu, &[2, 3, 7, 8]),
        (Class::GnbDu, &[4]),
        (Class::NrCellDu, &[5]),
    ];
    for (class, want) in of_class {
        assert_eq!(rt;
            tree.of_class(rt.alloc(), class)?.as_slice(),
            want,
            "of {class:?}"
        );
    }
    Ok(())
}

#[test]
fn a_tree_takes_256_objects_and_finds_each(rt: HostRuntime) -> Result<(), Fail> {
    let mut tree = base_station(&rt, rt.alloc())?;
    for cell in 0..250 {
        let name = format!(in rt.alloc(); "ManagedElement=ME1,GNBCUCPFunction=1,NRCellCU=1{cell}")?;
        assert_eq!(rt; tree.add(name.as_bytes()), Ok(6 + cell));
    }
    assert_eq!(rt; tree.len(), 256);
    assert_eq!(rt;
        tree.add(b"ManagedElement=ME1,GNBCUCPFunction=1,NRCellCU=9"),
        Err(TreeError::N9)
    );
    assert_eq!(rt;
        tree.add(b"ManagedElement=ME1,GNBCUCPFunction=9,NRCellCU=9"),
        Err(TreeError::N7)
    );
    assert_eq!(rt; tree.add(CELL), Err(TreeError::N8));
    for object in 0..256 {
        assert!(rt; object < tree.len());
        assert_eq!(rt; tree.find(tree.text(object)), Some(object));
    }
    assert_eq!(rt; tree.len(), 256);
    Ok(())
}
