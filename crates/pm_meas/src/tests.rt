use crate::catalogue::Catalogue;
use crate::cell::Cell;
use crate::error::MeasError;
use crate::kind::Reduce;
use crate::plain;
use crate::tally::Tally;
use std::alloc::Global;
use std::process::Abort;
use std::test::Fail;

// The measurements of the default inventory.
const NINE: [&str; 9] = [
    "RRC.ConnEstabAtt.mo-Data NRCellCU CC SUM",
    "RRC.ConnEstabAtt.mo-Signalling NRCellCU CC SUM",
    "RRC.ConnEstabSucc.mo-Data NRCellCU CC SUM",
    "RRC.ConnEstabSucc.mo-Signalling NRCellCU CC SUM",
    "RRC.ConnMean NRCellCU SI MEAN",
    "RRC.ConnMax NRCellCU SI MAX",
    "VS.QueueLength NRCellDU GAUGE MEAN",
    "VS.QueueLow NRCellDU GAUGE MIN",
    "VS.SetupTime NRCellDU DER MEAN 3",
];

fn nine(alloc: Global) -> Result<Catalogue, Fail> {
    let mut catalogue = Catalogue::new(alloc);
    for line in NINE {
        catalogue.add(line.as_bytes())?;
    }
    Ok(catalogue)
}

#[test]
fn a_line_is_refused_by_the_first_rule_that_it_breaks(rt: HostRuntime) -> Result<(), Fail> {
    let mut catalogue = nine(rt.alloc())?;
    let cases = [
        ("RRC NRCellCU CC SUM", MeasError::M1),
        ("A.b NRCellCU CC MEAN", MeasError::M2),
        ("RRC.ConnMean NRCellCU SI MEAN", MeasError::M3),
        ("", MeasError::I1),
        ("A.b NRCellCU CC", MeasError::I1),
        ("A.b NRCellDU DER MEAN 3 3", MeasError::I1),
        ("A.b. NRCellCU CC SUM", MeasError::M1),
        ("7.b NRCellCU CC SUM", MeasError::M1),
        ("A.b NRCell CC SUM", MeasError::M1),
        (" A.b NRCellCU CC SUM", MeasError::M1),
        ("A.b NRCellCU CC SUM ", MeasError::M2),
        ("A.b NRCellCU CC SUM 3", MeasError::M2),
        ("A.b NRCellDU DER MEAN", MeasError::M2),
        ("A.b NRCellDU DER MEAN 0", MeasError::M2),
        ("A.b NRCellDU DER MEAN 01", MeasError::M2),
        ("A.b NRCellDU DER MEAN 1001", MeasError::M2),
        ("A.b NRCellDU DER SUM 3", MeasError::M2),
        ("A.b NRCellDU SI SUM", MeasError::M2),
        ("A.b NRCellDU si MEAN", MeasError::M2),
        ("RRC.ConnMean NRCellCU CC MEAN", MeasError::M2),
        ("RRC.ConnMean NRCellDU CC SUM", MeasError::M3),
    ];
    for (line, want) in cases {
        assert_eq!(rt; catalogue.add(line.as_bytes()), Err(want), "at {line:?}");
    }
    assert_eq!(rt; catalogue.len(), 9);
    assert_eq!(rt; catalogue.add(b"A.b ManagedElement DER MIN 1000"), Ok(9));
    Ok(())
}

#[test]
fn a_catalogue_has_room_for_64_measurements(rt: HostRuntime) -> Result<(), Fail> {
    let mut catalogue = Catalogue::new(rt.alloc());
    for number in 0..64u8 {
        let line = format!(in rt.alloc(); "M{number}.x NRCellCU CC SUM")?;
        assert_eq!(rt; catalogue.add(line.as_bytes()), Ok(number), "at {line:?}");
    }
    assert_eq!(rt; catalogue.add(b"A.b NRCellCU CC SUM"), Err(MeasError::M4));
    assert_eq!(rt; catalogue.add(b"M7.x NRCellCU CC SUM"), Err(MeasError::M3));
    assert_eq!(rt; catalogue.find(b"M63.x"), Some(63));
    Ok(())
}

#[test]
fn a_measurement_is_found_by_its_name_and_written_as_its_line(rt: HostRuntime) -> Result<(), Fail> {
    let catalogue = nine(rt.alloc())?;
    for (line, metric) in NINE.into_iter().zip(0u8..) {
        let Some((name, _)) = line.split_once(' ') else {
            return Err("a line has a space".into());
        };
        assert_eq!(rt;
            catalogue.find(name.as_bytes()),
            Some(metric),
            "at {name:?}"
        );
        assert!(rt; metric < catalogue.len());
        let text = catalogue.def(metric).text(rt.alloc())?;
        assert_eq!(rt; text.as_slice(), line.as_bytes());
    }
    for name in ["", "RRC", "RRC.ConnMea", "RRC.ConnMean.", "rrc.ConnMean"] {
        assert_eq!(rt; catalogue.find(name.as_bytes()), None, "at {name:?}");
    }
    Ok(())
}

#[test]
fn a_family_is_the_part_before_the_first_dot(rt: HostRuntime) -> Result<(), Fail> {
    let catalogue = nine(rt.alloc())?;
    let cases: [(&str, &[u8]); 5] = [
        ("RRC", &[0, 1, 2, 3, 4, 5]),
        ("VS", &[6, 7, 8]),
        ("RRC.ConnEstabAtt", &[]),
        ("RR", &[]),
        ("", &[]),
    ];
    for (family, want) in cases {
        assert_eq!(rt;
            catalogue.family(rt.alloc(), family.as_bytes())?.as_slice(),
            want,
            "at {family:?}"
        );
    }
    Ok(())
}

fn folded(rt: &impl Abort, values: &[u32]) -> Cell {
    let mut cell = Cell::empty();
    for value in values {
        assert!(rt; *value <= 1_048_575 && cell.n < 9 && cell.sum <= cell.n * 1_048_575);
        cell.add(*value);
    }
    cell
}

#[test]
fn values_are_reduced(rt: HostRuntime) {
    let cases: [(&[u32], [Option<u64>; 4]); 5] = [
        (&[], [Some(0), None, None, None]),
        (&[0], [Some(0), Some(0), Some(0), Some(0)]),
        (&[3, 4], [Some(7), Some(3), Some(4), Some(3)]),
        (&[1, 1, 10], [Some(12), Some(4), Some(10), Some(1)]),
        (
            &[1_048_575, 2, 1_048_575],
            [Some(2_097_152), Some(699_050), Some(1_048_575), Some(2)],
        ),
    ];
    for (values, want) in cases {
        let cell = folded(&rt, values);
        assert!(rt; values.len() < 9);
        let reductions = [Reduce::Sum, Reduce::Mean, Reduce::Max, Reduce::Min];
        for (reduce, value) in reductions.into_iter().zip(want) {
            assert_eq!(rt; cell.reduce(reduce), value, "{reduce:?} of {values:?}");
            assert_eq!(rt;
                plain::value_of(reduce, values),
                value,
                "{reduce:?} of {values:?}"
            );
        }
    }
}

#[test]
fn cells_merge_into_the_cell_of_the_joined_values(rt: HostRuntime) -> Result<(), Fail> {
    let lists: [&[u32]; 4] = [&[], &[7], &[1_048_575, 0], &[5, 3, 9]];
    for first in lists {
        for second in lists {
            let mut cell = folded(&rt, first);
            let other = folded(&rt, second);
            assert!(rt; cell.n < 9 && cell.sum <= cell.n * 1_048_575);
            assert!(rt; other.n < 9 && other.sum <= other.n * 1_048_575);
            cell.merge(&other);
            let mut joined = Vec::from_slice(rt.alloc(), first)?;
            joined.extend_from_slice(second)?;
            assert!(rt; joined.len() < 9);
            assert_eq!(rt; cell, plain::fold_of(&joined), "of {joined:?}");
        }
    }
    Ok(())
}

#[test]
fn a_tally_has_a_cell_for_each_slot(rt: HostRuntime) -> Result<(), Fail> {
    let mut tally = Tally::new(rt.alloc(), 3)?;
    assert_eq!(rt; tally.len(), 3);
    let cell = Cell {
        n: 2,
        sum: 7,
        max: 4,
        min: 3,
    };
    tally.set(1, cell);
    assert_eq!(rt;
        tally.cells(),
        [Cell::empty(), cell, Cell::empty()].as_slice()
    );
    assert!(rt; tally.len() == 3);
    assert_eq!(rt; tally.get(1), cell);
    tally.clear();
    assert!(rt; tally.len() == 3);
    let empty = tally.get(2);
    assert!(rt; empty.n == 0 && empty.sum == 0);
    tally.add(2, 5);
    assert_eq!(rt; tally.cells().last().map(|cell| cell.sum), Some(5));
    tally.clear();
    assert_eq!(rt; tally.cells(), [Cell::empty(); 3].as_slice());
    Ok(())
}
