//! The file names of worked examples, and texts that are refused at each part.
use crate::{FileKind, FileName, NameError};
use pm_base::{Text, is_dn_id, is_job_id};
use std::alloc::{AllocError, Global};
use std::test::Fail;

/// Begin, end and text of names of `job1` on `ME1`: a quarter of an hour, one that ends at midnight, and an hour of four;
/// the first and the last period; the end of a leap day, all of it, and the last hour of a year.
const NAMES: &str = "\
1699999200 1700000100 A20231114.2200+0000-2215+0000_-job1_ME1
1700005500 1700006400 A20231114.2345+0000-0000+0000_-job1_ME1
1699999200 1700002800 C20231114.2200+0000-20231114.2300+0000_-job1_ME1
0 60 A19700101.0000+0000-0001+0000_-job1_ME1
253402300680 253402300740 A99991231.2358+0000-2359+0000_-job1_ME1
253402300560 253402300680 C99991231.2356+0000-99991231.2358+0000_-job1_ME1
1709249400 1709251200 A20240229.2330+0000-0000+0000_-job1_ME1
1709164800 1709251200 C20240229.0000+0000-20240301.0000+0000_-job1_ME1
1704063600 1704067200 A20231231.2300+0000-0000+0000_-job1_ME1";

/// Texts with the part that is to be refused.
const REFUSALS: &str = "\
F1 D20231114.2200+0000-2215+0000_-job1_ME1
F1 a20231114.2200+0000-2215+0000_-job1_ME1
F2 A
F2 A20231314.2200+0000-2215+0000_-job1_ME1
F2 A20230229.2200+0000-2215+0000_-job1_ME1
F2 A19691231.2200+0000-2215+0000_-job1_ME1
F2 A21000229.0000+0000-0015+0000_-job1_ME1
F2 A20231114
F2 A2023114.2200+0000-2215+0000_-job1_ME1
F3 A20231114.
F3 A20231114.2460+0000-2215+0000_-job1_ME1
F3 A20231114.2400+0000-0015+0000_-job1_ME1
F3 A20231114.2200+0100-2215+0100_-job1_ME1
F3 A20231114.2200+0000
F4 A20231114.2200+0000-20231114.2215+0000_-job1_ME1
F4 A20231114.2200+0000-99999999.2215+0000_-job1_ME1
F4 C20231114.2200+0000-2300+0000_-job1_ME1
F4 C20231114.2200+0000-20230229.2300+0000_-job1_ME1
F4 C20231114.2200+0000-
F4 C20231114.2200+0000-20231114
F5 A20231114.2200+0000-
F5 A20231114.2200+0000-20231114
F5 A20231114.2200+0000-2215
F5 A20231114.2201+0000-2216+0000_-job1_ME1
F5 A20231114.2345+0000-2400+0000_-job1_ME1
F5 A20231114.2200+0000-2210+0000_-job1_ME1
F5 A20231114.2200+0000-2200+0000_-job1_ME1
F5 A20231114.2200+0000-2145+0000_-job1_ME1
F5 A99991231.2359+0000-0000+0000_-job1_ME1
F5 C20231114.2200+0000-20231114.
F5 C20231114.2200+0000-20231114.2201+0000_-job1_ME1
F5 C20231114.0000+0000-20231114.0007+0000_-job1_ME1
F5 C20231114.2200+0000-20231114.2100+0000_-job1_ME1
F5 C20231114.0000+0000-20231116.0000+0000_-job1_ME1
F5 C20231114.2230+0000-20231114.2330+0000_-job1_ME1
F6 A20231114.2200+0000-2215+0000
F6 A20231114.2200+0000-2215+0000_job1_ME1
F6 A20231114.2200+0000-2215+0000_-
F6 A20231114.2200+0000-2215+0000_-_ME1
F6 A20231114.2200+0000-2215+0000_--job1_ME1
F6 A20231114.2200+0000-2215+0000_-000000000000000000000000000000000_ME1
F7 A20231114.2200+0000-2215+0000_-job1
F7 A20231114.2200+0000-2215+0000_-job1_
F7 A20231114.2200+0000-2215+0000_-job1.x_ME1
F7 A20231114.2200+0000-2215+0000_-job1_M E
F7 A20231114.2200+0000-2215+0000_-job1_ME1_
F7 A20231114.2200+0000-2215+0000_-job1_MMMMMMMMMMMMMMMMMMMMMMMMMMMMMMMMMMMMMMMMMMMMMMMMMMMMMMMMMMMMMMMMM";

fn refusal(code: &str) -> Option<NameError> {
    match code {
        "F1" => Some(NameError::F1),
        "F2" => Some(NameError::F2),
        "F3" => Some(NameError::F3),
        "F4" => Some(NameError::F4),
        "F5" => Some(NameError::F5),
        "F6" => Some(NameError::F6),
        "F7" => Some(NameError::F7),
        _ => None,
    }
}

/// Whether the text is read as such a name, which is written as the text.
fn is_name(alloc: Global, begin: u64, end: u64, text: &[u8]) -> Result<bool, NameError> {
    FileName::check(text)?;
    let name = FileName::read(alloc, text)?;
    let Ok(written) = name.write(alloc) else {
        return Err(NameError::Memory);
    };
    let is_a = text.first() == Some(&b'A');
    Ok(
        (name.kind() == FileKind::A) == is_a
            && name.begin() == begin
            && name.end() == end
            && name.job() == b"job1".as_slice()
            && name.unique() == b"ME1".as_slice()
            && written.as_bytes() == text,
    )
}

#[test]
fn a_name_is_read_and_written(rt: HostRuntime) -> Result<(), Fail> {
    for line in NAMES.lines() {
        let (begin, rest) = line.split_once(' ').expect(&rt, "a begin");
        let (end, text) = rest.split_once(' ').expect(&rt, "an end");
        let answer = is_name(rt.alloc(), begin.parse()?, end.parse()?, text.as_bytes());
        assert_eq!(rt; answer, Ok(true), "at {line}");
    }
    Ok(())
}

#[test]
fn a_text_is_refused_at_its_first_bad_part(rt: HostRuntime) {
    assert_eq!(rt; FileName::check(b""), Err(NameError::F1));
    for line in REFUSALS.lines() {
        let (code, text) = line.split_once(' ').expect(&rt, "a code");
        let text = text.as_bytes();
        assert_eq!(rt; FileName::check(text).err(), refusal(code), "at {line}");
        assert_eq!(rt;
            FileName::read(rt.alloc(), text).err(),
            refusal(code),
            "at {line}"
        );
    }
}

/// The name of the file of a quarter of an hour, or no byte where an id is refused.
fn made(alloc: Global, job: Text, unique: Text) -> Result<Text, AllocError> {
    let kind = FileKind::of_period(true);
    if kind.can_span(1699999200, 1700000100)
        && is_job_id(job.as_bytes())
        && is_dn_id(unique.as_bytes())
    {
        FileName::new(kind, 1699999200, 1700000100, job, unique).write(alloc)
    } else {
        Ok(Text::new(alloc))
    }
}

#[test]
fn a_name_is_made_of_a_period_and_the_longest_ids(rt: HostRuntime) -> Result<(), Fail> {
    let job = Text::from_slice(rt.alloc(), b"0000000000000000000000000000000a")?;
    let unique = Text::from_slice(
        rt.alloc(),
        b"-.-.-.-.-.-.-.-.-.-.-.-.-.-.-.-.-.-.-.-.-.-.-.-.-.-.-.-.-.-.-.Zz",
    )?;
    let text = made(rt.alloc(), job, unique)?;
    let want =
        b"A20231114.2200+0000-2215+0000_-0000000000000000000000000000000a_-.-.-.-.-.-.-.-.-.-.-.-.-.-.-.-.-.-.-.-.-.-.-.-.-.-.-.-.-.-.-.Zz";
    assert_eq!(rt; text.as_bytes(), want.as_slice());
    assert_eq!(rt; FileName::check(want), Ok(()));
    Ok(())
}
