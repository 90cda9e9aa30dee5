//! Histories whose notices, names and texts were worked out by hand.
use crate::closing::Closing;
use crate::run::{Asked, beside, told};
use pm_history::Entry;
use pm_inventory::Inventory;
use pm_jobs::{Ask, Side};
use std::alloc::Global;
use std::process::Abort;
use std::test::Fail;

// The product and the definitions tell this of a history over the default inventory.
fn tells(rt: &impl Abort, alloc: Global, history: &str, want: &str) -> Result<Closing, Fail> {
    let input = format!(in alloc; "end\n{history}")?;
    let both = beside(alloc, input.as_bytes());
    let (closing, lines) = both.ok().ok_or("the history is told")?;
    assert_eq!(rt;
        String::from_utf8_lossy(alloc, &lines)?.as_str(),
        want,
        "defined for {history}"
    );
    let told = closing.lines(alloc).ok().ok_or("there is memory")?;
    assert_eq!(rt;
        String::from_utf8_lossy(alloc, &told)?.as_str(),
        want,
        "told of {history}"
    );
    Ok(closing)
}

fn assert_listing(
    rt: &impl Abort,
    alloc: Global,
    closing: &Closing,
    want: &[u8],
) -> Result<(), Fail> {
    let listing = closing.listing(alloc).ok().ok_or("there is memory")?;
    assert_eq!(rt; listing.as_slice(), want);
    Ok(())
}

fn assert_file(
    rt: &impl Abort,
    alloc: Global,
    closing: &Closing,
    name: &[u8],
    want: &[u8],
) -> Result<(), Fail> {
    let file = closing.find(alloc, name).ok().ok_or("there is memory")?;
    assert_eq!(rt; file, Some(want));
    Ok(())
}

const NAME: &[u8] = b"A20231114.2200+0000-2215+0000_-job1_ME1";

const TEXT: &[u8] =
    br#"{"fileFooter":{"endTime":1700000100},"fileHeader":{"beginTime":1699999200,"fileFormatVersion":"PM1","jobId":"job1","senderName":"ManagedElement=ME1"},"measData":[{"beginTime":1699999200,"endTime":1700000100,"granularityPeriod":900,"measInfo":[{"measTypes":["RRC.ConnEstabAtt.mo-Data"],"measValues":[{"measObjInstId":"ManagedElement=ME1,GNBCUCPFunction=1,NRCellCU=7","measResults":[5],"suspectFlag":false}],"objectClass":"NRCellCU"}]}]}"#;

const LISTING: &[u8] =
    br#"{"fileInfoList":[{"fileDataType":"Performance","fileExpirationTime":1700086500,"fileFormat":"JSON","fileLocation":"/files/A20231114.2200+0000-2215+0000_-job1_ME1","fileReadyTime":1700000100,"fileSize":435}]}"#;

const FILE: &str = "file 1699999200 1700000100 job1
part 1699999200 1700000100
value 0 2 5 ok
notices 1
";

#[test]
fn a_counter_over_a_quarter_of_an_hour_has_a_file(rt: HostRuntime) -> Result<(), Fail> {
    let alloc = rt.alloc();
    let closing = tells(
        &rt,
        alloc,
        "boot 1699999100
now 1699999190
job 1699999190 job1 900 15 UNLOCKED 0 2
now 1699999200
event 1699999200 2 0 2 1
now 1699999800
event 1699999800 2 0 3 1
now 1700000100
",
        FILE,
    )?;
    assert_listing(&rt, alloc, &closing, LISTING)?;
    assert_file(&rt, alloc, &closing, NAME, TEXT)?;
    assert_eq!(rt; TEXT.len(), 435);
    // A start of the program two days later.
    let closing = tells(
        &rt,
        alloc,
        "boot 1699999100
now 1699999190
job 1699999190 job1 900 15 UNLOCKED 0 2
now 1699999200
event 1699999200 2 0 2 1
boot 1700172000
",
        "notices 0\n",
    )?;
    assert_listing(&rt, alloc, &closing, br#"{"fileInfoList":[]}"#)
}

#[test]
fn an_hour_has_a_file_of_four_parts(rt: HostRuntime) -> Result<(), Fail> {
    let alloc = rt.alloc();
    let closing = tells(
        &rt,
        alloc,
        "boot 1699999100
now 1699999190
job 1699999190 job1 900 60 UNLOCKED 0 2
now 1699999200
event 1699999200 2 0 2 1
now 1699999800
event 1699999800 2 0 3 1
now 1700000100
now 1700002800
",
        "file 1699999200 1700002800 job1
part 1699999200 1700000100
value 0 2 5 ok
part 1700000100 1700001000
value 0 2 0 ok
part 1700001000 1700001900
value 0 2 0 ok
part 1700001900 1700002800
value 0 2 0 ok
notices 1
",
    )?;
    let name = b"C20231114.2200+0000-20231114.2300+0000_-job1_ME1";
    assert!(rt; matches!(closing.find(alloc, name), Ok(Some(_))));
    Ok(())
}

#[test]
fn changes_of_a_job_make_its_file_suspect_or_take_it_away(rt: HostRuntime) -> Result<(), Fail> {
    let rows: [(&str, &str); 6] = [
        // Made in the first tick, which isn't counted.
        (
            "boot 1699999100
now 1699999200
job 1699999200 job1 900 15 UNLOCKED 0 2
event 1699999200 2 0 2 1
now 1699999800
event 1699999800 2 0 3 1
now 1700000100
",
            "file 1699999200 1700000100 job1
part 1699999200 1700000100
value 0 2 3 suspect
notices 1
",
        ),
        // Set to LOCKED and to UNLOCKED within a tick.
        (
            "boot 1699999100
now 1699999190
job 1699999190 job1 900 15 UNLOCKED 0 2
now 1699999200
event 1699999200 2 0 2 1
now 1699999510
lock 1699999510 job1
unlock 1699999510 job1
now 1699999520
event 1699999520 2 0 7 1
now 1699999800
event 1699999800 2 0 3 1
now 1700000100
",
            "file 1699999200 1700000100 job1
part 1699999200 1700000100
value 0 2 5 suspect
notices 1
",
        ),
        // It was UNLOCKED already: that is no entry.
        (
            "boot 1699999100
now 1699999190
job 1699999190 job1 900 15 UNLOCKED 0 2
now 1699999200
event 1699999200 2 0 2 1
now 1699999510
unlock 1699999510 job1
now 1699999520
event 1699999520 2 0 7 1
now 1699999800
event 1699999800 2 0 3 1
now 1700000100
",
            "file 1699999200 1700000100 job1
part 1699999200 1700000100
value 0 2 12 ok
notices 1
",
        ),
        // Deleted a second before the end, and at the end.
        (
            "boot 1699999100
now 1699999190
job 1699999190 job1 900 15 UNLOCKED 0 2
now 1699999200
event 1699999200 2 0 2 1
now 1700000099
delete 1700000099 job1
now 1700000100
",
            "notices 0\n",
        ),
        (
            "boot 1699999100
now 1699999190
job 1699999190 job1 900 15 UNLOCKED 0 2
now 1699999200
event 1699999200 2 0 5 1
now 1700000100
delete 1700000100 job1
",
            FILE,
        ),
        // Of four events of the kind DER the third is registered; no value where there is none.
        (
            "boot 1699999100
now 1699999190
job 1699999190 job1 60 1 UNLOCKED 8 5
now 1699999200
event 1699999200 5 8 10 0
event 1699999200 5 8 20 0
event 1699999200 5 8 30 1
event 1699999200 5 8 40 0
now 1699999260
event 1699999260 5 8 10 0
event 1699999260 5 8 20 0
now 1699999320
",
            "file 1699999200 1699999260 job1
part 1699999200 1699999260
value 8 5 30 ok
file 1699999260 1699999320 job1
part 1699999260 1699999320
value 8 5 null ok
notices 2
",
        ),
    ];
    for (history, want) in rows {
        let _closing = tells(&rt, rt.alloc(), history, want)?;
    }
    Ok(())
}

// An event of 1 in each of so many ticks, from this moment on.
fn events(text: &mut String, first: u64, ticks: u8) -> Result<(), Fail> {
    let mut moment = first;
    for _ in 0..ticks {
        writeln!(text, "now {moment}\nevent {moment} 2 0 1 1")?;
        moment = moment.saturating_add(60);
    }
    Ok(())
}

#[test]
fn what_a_start_of_the_program_cuts_is_not_counted(rt: HostRuntime) -> Result<(), Fail> {
    let alloc = rt.alloc();
    let mut text = String::new(alloc);
    text.push_str("boot 1699999100\nnow 1699999190\njob 1699999190 job1 900 15 UNLOCKED 0 2\n")?;
    events(&mut text, 1_699_999_205, 8)?;
    let mut soon = String::new(alloc);
    write!(soon, "{text}boot 1699999690\n")?;
    events(&mut soon, 1_699_999_745, 6)?;
    soon.push_str("now 1700000100\n")?;
    tells(
        &rt,
        alloc,
        soon.as_str(),
        "file 1699999200 1700000100 job1
part 1699999200 1700000100
value 0 2 13 suspect
notices 1
",
    )?;
    // After the period ended, and once more.
    text.push_str("boot 1700000400\nboot 1700000400\n")?;
    let closing = tells(
        &rt,
        alloc,
        text.as_str(),
        "file 1699999200 1700000100 job1
part 1699999200 1700000100
value 0 2 7 suspect
notices 1
",
    )?;
    assert!(rt; matches!(closing.find(alloc, NAME), Ok(Some(_))));
    Ok(())
}

#[test]
fn a_threshold_is_crossed_up_and_down(rt: HostRuntime) -> Result<(), Fail> {
    let rows: [(&str, [u32; 6], &str); 2] = [
        (
            "80:5",
            [70, 86, 84, 88, 75, 85],
            "crossing 1699999320 mon1 0 4 2 UP 86
crossing 1699999500 mon1 0 4 2 DOWN 75
crossing 1699999560 mon1 0 4 2 UP 85
notices 3
",
        ),
        (
            "10:0",
            [10, 10, 11, 10, 9, 10],
            "crossing 1699999260 mon1 0 4 2 UP 10
crossing 1699999440 mon1 0 4 2 DOWN 10
crossing 1699999560 mon1 0 4 2 UP 10
notices 3
",
        ),
    ];
    for (limit, values, want) in rows {
        let mut text = String::new(rt.alloc());
        text.push_str("boot 1699999100\nnow 1699999190\n")?;
        writeln!(
            text,
            "monitor 1699999190 mon1 60 UNLOCKED 2 4:UP_AND_DOWN:{limit}"
        )?;
        let mut moment = 1_699_999_200u64;
        for value in values {
            writeln!(text, "now {moment}\nevent {moment} 2 4 {value} 1")?;
            moment = moment.saturating_add(60);
        }
        writeln!(text, "now {moment}")?;
        tells(&rt, rt.alloc(), text.as_str(), want)?;
    }
    Ok(())
}

#[test]
fn a_family_without_events_has_sums_of_0_and_no_means(rt: HostRuntime) -> Result<(), Fail> {
    let alloc = rt.alloc();
    let inventory = Inventory::default(alloc)?;
    let closing = Closing::new(alloc, &inventory);
    let mut closing = closing.ok().ok_or("there is memory")?;
    for moment in [1_699_999_100, 1_699_999_190] {
        let boot = moment == 1_699_999_100;
        let entry = if boot {
            Entry::Boot { moment }
        } else {
            Entry::Now { moment }
        };
        assert_eq!(rt; closing.take(alloc, &inventory, &entry), Ok(true));
    }
    let ask = Ask::Create {
        id: b"job1",
        body: br#"{"granularityPeriod":900,"objectInstances":["ManagedElement=ME1,GNBCUCPFunction=1,NRCellCU=8"],"performanceMetrics":["RRC"],"reportingPeriod":15}"#,
    };
    let made = closing.change(alloc, &inventory, 1_699_999_190, Side::Job, &ask);
    assert_eq!(rt; made, Ok(true));
    let entry = Entry::Now {
        moment: 1_700_000_100,
    };
    assert_eq!(rt; closing.take(alloc, &inventory, &entry), Ok(true));
    assert_file(
        &rt,
        alloc,
        &closing,
        NAME,
        br#"{"fileFooter":{"endTime":1700000100},"fileHeader":{"beginTime":1699999200,"fileFormatVersion":"PM1","jobId":"job1","senderName":"ManagedElement=ME1"},"measData":[{"beginTime":1699999200,"endTime":1700000100,"granularityPeriod":900,"measInfo":[{"measTypes":["RRC.ConnEstabAtt.mo-Data","RRC.ConnEstabAtt.mo-Signalling","RRC.ConnEstabSucc.mo-Data","RRC.ConnEstabSucc.mo-Signalling","RRC.ConnMean","RRC.ConnMax"],"measValues":[{"measObjInstId":"ManagedElement=ME1,GNBCUCPFunction=1,NRCellCU=8","measResults":[0,0,0,0,null,null],"suspectFlag":false}],"objectClass":"NRCellCU"}]}]}"#,
    )
}

// Two hundred years have 105,189,840 ticks. Those of the open report alone are visited: it ends with the first of its ends.
#[test]
fn a_start_two_hundred_years_later_ends_the_open_report_alone(rt: HostRuntime) -> Result<(), Fail> {
    let alloc = rt.alloc();
    let input: &[u8] = b"end
boot 1699999100
now 1699999190
job 1699999190 job1 900 60 UNLOCKED 0 2
monitor 1699999190 mon1 3600 UNLOCKED 2 0:UP:1:0
now 1699999200
event 1699999200 2 0 2 1
now 1699999260
boot 8011389600
now 8011389660
now 8011389720
";
    let want: &[u8] = b"file 1699999200 1700002800 job1
part 1699999200 1700000100
value 0 2 2 suspect
part 1700000100 1700001000
value 0 2 null suspect
part 1700001000 1700001900
value 0 2 null suspect
part 1700001900 1700002800
value 0 2 null suspect
notices 1
";
    let lines = told(alloc, Asked::Closed, input)
        .ok()
        .ok_or("it is a history")?;
    assert_eq!(rt; lines.as_slice(), want);
    Ok(())
}
