//! Each refusal of an inventory and of a line of events, with its place and what is written.

use crate::tally::{compare, spelled};
use pm_base::Code;
use pm_top::Status;
use std::alloc::{AllocError, Global};
use std::process::Abort;
use std::test::Fail;

// The rest of an input. Its event is written where the lines before make an inventory with this object.
const REST: &str = "measure A.z ManagedElement CC SUM\nend\n60 ManagedElement=ME1 A.z 1\n";

// The program ends so, and has written this, however its reads are cut.
fn ends(
    rt: &impl Abort,
    alloc: Global,
    input: &str,
    status: Status,
    output: &str,
) -> Result<(), Fail> {
    let given = spelled(alloc, input)?;
    let written = spelled(alloc, output)?;
    let plain = compare(rt, alloc, given.as_bytes(), 0)?;
    assert_eq!(rt; Status::from(plain.end), status, "at {input:?}");
    assert_eq!(rt; plain.text.as_bytes(), written.as_bytes(), "at {input:?}");
    Ok(())
}

// An inventory that begins with these lines is refused at one of them, and nothing is written.
fn refuses(rt: &impl Abort, alloc: Global, lines: &str, line: u64, code: Code) -> Result<(), Fail> {
    let input = format!(in alloc; "{lines}{REST}")?;
    ends(rt, alloc, &input, Status::BadInventory { line, code }, "")
}

// The name of an object after ManagedElement=ME1.
const NAMES: [(&str, Code); 8] = [
    ("", Code::N1),
    ("GNBDUFunction", Code::N2),
    ("GNBDUFunction=a_b", Code::N3),
    ("A=1,A=1,A=1,A=1,A=1,A=1,A=1,A=1,A=1", Code::N5),
    ("NRCellDU=7", Code::N6),
    ("d7", Code::N7),
    ("ManagedElement=ME1", Code::N8),
    ("ManagedElement=ME2", Code::N10),
];

#[test]
fn a_name_of_an_object_is_refused_at_its_line(rt: HostRuntime) -> Result<(), Fail> {
    let alloc = rt.alloc();
    for (name, code) in NAMES {
        let lines = format!(in alloc; "object ManagedElement=ME1\nobject {name}\n")?;
        refuses(&rt, alloc, &lines, 2, code)?;
    }
    let id = "x".repeat(alloc, 65)?;
    let lines = format!(in alloc;
        "object ManagedElement=ME1\nobject ManagedElement=ME1,GNBDUFunction={id}\n"
    )?;
    refuses(&rt, alloc, &lines, 2, Code::N4)
}

// The words of a measurement after A.b.
const MEASURES: [(&str, Code); 4] = [
    ("A.c NRCellCU CC", Code::I1),
    ("RRC NRCellCU CC SUM", Code::M1),
    ("A.c NRCellCU CC MEAN", Code::M2),
    ("A.b NRCellDU SI MAX", Code::M3),
];

#[test]
fn a_measurement_is_refused_at_its_line(rt: HostRuntime) -> Result<(), Fail> {
    let alloc = rt.alloc();
    for (words, code) in MEASURES {
        let lines = format!(in alloc;
            "object ManagedElement=ME1\nmeasure A.b NRCellCU CC SUM\nmeasure {words}\n"
        )?;
        refuses(&rt, alloc, &lines, 3, code)?;
    }
    Ok(())
}

#[test]
fn another_form_and_an_end_are_refused(rt: HostRuntime) -> Result<(), Fail> {
    let alloc = rt.alloc();
    let rows = [
        ("objects x\n", 1, Code::I1),
        ("measure A.b NRCellCU CC SUM\nend\n", 2, Code::N10),
        ("object ManagedElement=ME1\nend\n", 2, Code::M5),
    ];
    for (lines, line, code) in rows {
        refuses(&rt, alloc, lines, line, code)?;
    }
    for (input, line) in [("", 1), ("object ManagedElement=ME1\n", 2)] {
        let code = Code::I2;
        ends(&rt, alloc, input, Status::BadInventory { line, code }, "")?;
    }
    Ok(())
}

// A ManagedElement, a GNBDUFunction and so many cells, and so many measurements.
fn large(alloc: Global, cells: u16, measures: u16) -> Result<String, AllocError> {
    let mut lines = String::new(alloc);
    lines.push_str("object ManagedElement=ME1\nobject ManagedElement=ME1,GNBDUFunction=1\n")?;
    for cell in 0..cells {
        writeln!(
            lines,
            "object ManagedElement=ME1,GNBDUFunction=1,NRCellDU={cell}"
        )?;
    }
    for measure in 0..measures {
        writeln!(lines, "measure A.b{measure} ManagedElement CC SUM")?;
    }
    Ok(lines)
}

#[test]
fn a_257th_object_and_a_65th_measurement_are_refused(rt: HostRuntime) -> Result<(), Fail> {
    let alloc = rt.alloc();
    // 256 objects and 64 measurements, the rest's with them.
    let most = large(alloc, 254, 63)?;
    let input = format!(in alloc; "{most}{REST}")?;
    let written = "60 ManagedElement=ME1 A.z 1\n";
    ends(&rt, alloc, &input, Status::Done, written)?;

    let objects = large(alloc, 255, 0)?;
    refuses(&rt, alloc, &objects, 257, Code::N9)?;
    let measures = large(alloc, 254, 64)?;
    refuses(&rt, alloc, &measures, 321, Code::M4)
}

// A line behind events of two ticks.
const EVENTS: [(&str, Code); 4] = [
    ("180 c7 Att", Code::E1),
    ("180 c7 A.b 3", Code::E2),
    ("180 c7 Att 1048576", Code::E3),
    ("119 c7 Att 3", Code::E5),
];

#[test]
fn a_refused_event_ends_no_tick(rt: HostRuntime) -> Result<(), Fail> {
    let alloc = rt.alloc();
    for (line, code) in EVENTS {
        let input = format!(in alloc; "end\n60 c7 Att 1\n120 c7 Att 2\n{line}\n240 c7 Att 4\n")?;
        let status = Status::BadInput { place: 4, code };
        ends(&rt, alloc, &input, status, "60 c7 Att 1\n")?;
    }
    Ok(())
}
