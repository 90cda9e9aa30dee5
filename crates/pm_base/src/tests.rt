//! What no contract says: that calls succeed, and what texts mean.
use crate::*;
use std::test::Fail;

#[test]
fn byte_strings_hold_the_bytes_given(rt: HostRuntime) -> Result<(), Fail> {
    let text = Text::from_slice(rt.alloc(), b"NRCellCU=7")?;
    assert_eq!(rt; text.as_bytes(), b"NRCellCU=7".as_slice());
    assert_eq!(rt; text.len(), 10);
    assert_eq!(rt;
        Text::from_vec(text.into_vec()).as_bytes(),
        b"NRCellCU=7".as_slice()
    );
    assert!(rt; Text::new(rt.alloc()).is_empty());
    let blob = Blob::from_slice(rt.alloc(), b"{}")?;
    assert_eq!(rt; blob.as_bytes(), b"{}".as_slice());
    assert_eq!(rt; blob.len(), 2);
    assert_eq!(rt;
        Blob::from_vec(blob.into_vec()).as_bytes(),
        b"{}".as_slice()
    );
    assert!(rt; Blob::new(rt.alloc()).is_empty());
    Ok(())
}

#[test]
fn classes_and_codes_have_the_names_of_the_standard(rt: HostRuntime) {
    let classes = [
        ("ManagedElement", Some(Class::ManagedElement)),
        ("GNBCUCPFunction", Some(Class::GnbCuCp)),
        ("NRCellCU", Some(Class::NrCellCu)),
        ("GNBDUFunction", Some(Class::GnbDu)),
        ("NRCellDU", Some(Class::NrCellDu)),
        ("NRCellCu", None),
        ("", None),
    ];
    for (name, class) in classes {
        assert_eq!(rt; Class::from_name(name.as_bytes()), class, "at {name}");
        assert_eq!(rt; class.map_or(name, |class| class.name()), name);
    }
    let codes = [
        ("N10", Code::N10),
        ("I1", Code::I1),
        ("E5", Code::E5),
        ("J12", Code::J12),
        ("G4", Code::G4),
        ("MEM", Code::MEM),
    ];
    for (name, code) in codes {
        assert_eq!(rt; code.name(), name);
    }
}

#[test]
fn numbers_and_moments_are_read_up_to_their_ends(rt: HostRuntime) {
    let numbers: [(&[u8], usize, Option<u64>); 7] = [
        (b"0", 10, Some(0)),
        (b"0000000001", 10, Some(1)),
        (b"00000000001", 10, None),
        (b"9999999999999999999", 19, Some(9999999999999999999)),
        (b"", 10, None),
        (b"+1", 10, None),
        (b"1 ", 10, None),
    ];
    for (bytes, most, number) in numbers {
        assert!(rt; most <= 19);
        assert_eq!(rt; read_number(bytes, most), number, "at {bytes:?}");
    }
    let moments: [(&[u8], Option<u64>); 5] = [
        (b"1699999200", Some(1699999200)),
        (b"000000000060", Some(60)),
        (b"0000000000060", None),
        (b"253402300799", Some(253402300799)),
        (b"253402300800", None),
    ];
    for (bytes, moment) in moments {
        assert_eq!(rt; read_moment(bytes), moment, "at {bytes:?}");
    }
    for (moment, number) in [
        (59, 0),
        (60, 1),
        (1699999259, 28333320),
        (LAST_MOMENT, 4223371679),
    ] {
        assert_eq!(rt; tick(moment), number, "at {moment}");
    }
}

#[test]
fn names_are_taken_up_to_their_lengths_and_alphabets(rt: HostRuntime) {
    let long = [b'a'; 65];
    let job_ids: [(&[u8], bool); 6] = [
        (b"7-Job", true),
        (&long[..32], true),
        (&long[..33], false),
        (b"", false),
        (b"-job", false),
        (b"job.1", false),
    ];
    for (name, good) in job_ids {
        assert_eq!(rt; is_job_id(name), good, "at {name:?}");
    }
    let measure_names: [(&[u8], bool); 7] = [
        (b"RRC.ConnEstabAtt.mo-Data", true),
        (b"A.b", true),
        (b"A.", false),
        (b"AB.", false),
        (b"RRC", false),
        (b"5QI.b", false),
        (b"A.b_c", false),
    ];
    for (name, good) in measure_names {
        assert_eq!(rt; is_measure_name(name), good, "at {name:?}");
    }
    let parts: [(&[u8], bool, bool); 6] = [
        (b"NRCellCU", true, true),
        (&long[..64], true, true),
        (&long[..65], false, false),
        (b"", false, false),
        (b"7", false, true),
        (b"a-1.b", false, true),
    ];
    for (name, class, id) in parts {
        assert_eq!(rt; is_dn_class(name), class, "at {name:?}");
        assert_eq!(rt; is_dn_id(name), id, "at {name:?}");
    }
}

#[test]
fn a_text_is_cut_at_the_first_place(rt: HostRuntime) {
    let cuts: [(&[u8], &[u8], &[u8]); 3] = [
        (b"a b c", b"a", b"b c"),
        (b" a", b"", b"a"),
        (b"a ", b"a", b""),
    ];
    for (bytes, front, rest) in cuts {
        let cut = cut_at(b' ', bytes);
        assert!(rt; cut.is_some());
        let (before, behind) = cut.unwrap_or((bytes, bytes));
        assert_eq!(rt; before, front);
        assert_eq!(rt; behind, rest);
    }
    assert!(rt; cut_at(b' ', b"abc").is_none());
}
