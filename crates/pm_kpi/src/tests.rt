//! Runs of key indicators over objects in memory.
use crate::{By, KpiEnd, KpiError, Ratios, kpi};
use pm_base::Code;
use pm_collect::{CollectError, Collector};
use pm_disk::MemDisk;
use pm_outside::{MemSink, MemSource};
use std::alloc::{AllocError, Global};
use std::test::Fail;

const FIRST: &[u8] = b"A20231114.2200+0000-2215+0000_-k1_ME1";

const SECOND: &[u8] = b"A20231114.2215+0000-2230+0000_-k1_ME1";

const LISTING: &[u8] =
    br#"{"fileInfoList":[{"fileDataType":"Performance","fileExpirationTime":1700086500,"fileFormat":"JSON","fileLocation":"/files/A20231114.2200+0000-2215+0000_-k1_ME1","fileReadyTime":1700000100,"fileSize":1},{"fileDataType":"Performance","fileExpirationTime":1700087400,"fileFormat":"JSON","fileLocation":"/files/A20231114.2215+0000-2230+0000_-k1_ME1","fileReadyTime":1700001000,"fileSize":1}]}"#;

const LINE: &[u8] = b"ratio estab RRC.ConnEstabSucc.mo-Data RRC.ConnEstabAtt.mo-Data\n";

// The text of a file with one row.
fn text(
    alloc: Global,
    begin: u64,
    end: u64,
    results: &str,
    suspect: bool,
) -> Result<String, AllocError> {
    format!(in alloc;
        r#"{{"fileFooter":{{"endTime":{end}}},"fileHeader":{{"beginTime":{begin},"fileFormatVersion":"PM1","jobId":"k1","senderName":"ManagedElement=ME1"}},"measData":[{{"beginTime":{begin},"endTime":{end},"granularityPeriod":900,"measInfo":[{{"measTypes":["RRC.ConnEstabAtt.mo-Data","RRC.ConnEstabSucc.mo-Data"],"measValues":[{{"measObjInstId":"ManagedElement=ME1,GNBCUCPFunction=1,NRCellCU=7","measResults":{results},"suspectFlag":{suspect}}}],"objectClass":"NRCellCU"}}]}}]}}"#
    )
}

// Fills the store of a disk with two files that have these results.
fn fill(alloc: Global, disk: &mut MemDisk, first: &str, second: &str) -> Result<(), CollectError> {
    let Ok(first) = text(alloc, 1699999200, 1700000100, first, false) else {
        return Err(CollectError::Memory);
    };
    let Ok(second) = text(alloc, 1700000100, 1700001000, second, true) else {
        return Err(CollectError::Memory);
    };
    let mut collector = Collector::open(alloc, disk)?;
    collector.listing(LISTING)?;
    collector.file(disk, FIRST, first.as_bytes())?;
    collector.file(disk, SECOND, second.as_bytes())
}

// How a run over such a store ends, and whether it has written these lines.
fn run(
    alloc: Global,
    input: &[u8],
    first: &str,
    second: &str,
    by: By,
    lines: &[u8],
) -> Result<(KpiEnd, bool), Fail> {
    let mut disk = MemDisk::new(alloc, 4000, &[])?;
    fill(alloc, &mut disk, first, second)?;
    let mut input = MemSource::new(alloc, input, &[])?;
    let mut output = MemSink::new(alloc, 1000, &[])?;
    let end = kpi(
        alloc,
        &mut input,
        &mut output,
        &mut disk,
        0,
        253402300799,
        by,
    );
    Ok((end, output.written() == lines))
}

#[test]
fn the_ratio_of_sums_is_told_by_period_and_by_all(rt: HostRuntime) -> Result<(), Fail> {
    let lines =
        b"k1 1699999200 1700000100 ManagedElement=ME1,GNBCUCPFunction=1,NRCellCU=7 estab 750000 ok\nk1 1700000100 1700001000 ManagedElement=ME1,GNBCUCPFunction=1,NRCellCU=7 estab 333333 suspect\n";
    assert_eq!(rt;
        run(rt.alloc(), LINE, "[8,6]", "[3,1]", By::Period, lines)?,
        (KpiEnd::Done, true)
    );
    assert_eq!(rt;
        run(
            rt.alloc(),
            LINE,
            "[8,6]",
            "[3,1]",
            By::All,
            b"k1 - - - estab 636363 suspect\n"
        )?,
        (KpiEnd::Done, true)
    );
    let lines =
        b"k1 1699999200 1700000100 ManagedElement=ME1,GNBCUCPFunction=1,NRCellCU=7 estab null ok\nk1 1700000100 1700001000 ManagedElement=ME1,GNBCUCPFunction=1,NRCellCU=7 estab null suspect\n";
    assert_eq!(rt;
        run(rt.alloc(), LINE, "[0,0]", "[null,1]", By::Period, lines)?,
        (KpiEnd::Done, true)
    );
    assert_eq!(rt;
        run(rt.alloc(), b"", "[0,0]", "[null,1]", By::Period, b"")?,
        (KpiEnd::Done, true)
    );
    let refused = KpiEnd::BadInput {
        place: 1,
        code: Code::K1,
    };
    assert_eq!(rt;
        run(rt.alloc(), b"ratio a\n", "[0,0]", "[0,0]", By::Period, b"")?,
        (refused, true)
    );
    Ok(())
}

#[test]
fn a_line_is_refused_by_the_first_rule_that_it_breaks(rt: HostRuntime) -> Result<(), Fail> {
    let mut ratios = Ratios::new(rt.alloc());
    assert_eq!(rt; ratios.add(b"ratio estab A.b+A.b A.c")?, 0);
    assert_eq!(rt; ratios.add(b"ratio estab A.b A.").err(), Some(KpiError::K1));
    assert_eq!(rt;
        ratios.add(b"ratio estab A.b A.c").err(),
        Some(KpiError::K2)
    );
    for _ratio in 1..64 {
        let number = ratios.list().len();
        let line = format!(in rt.alloc(); "ratio r{number} A.b A.c")?;
        ratios.add(line.as_bytes())?;
    }
    assert_eq!(rt; ratios.add(b"ratio r1 A.b A.c").err(), Some(KpiError::K2));
    assert_eq!(rt; ratios.add(b"ratio more A.b A.c").err(), Some(KpiError::K3));
    Ok(())
}
