//! What the texts of notices and listings say.
use crate::*;
use pm_base::{Blob, LAST_MOMENT, Text};
use pm_form::{ReadError, Refusal};
use pm_name::FileName;
use std::alloc::{AllocError, Global};
use std::test::Fail;

const KIND: ReadError = ReadError::Refused(Refusal::WrongType);

const KEYS: ReadError = ReadError::Refused(Refusal::WrongKeys);

const CROSSING: &[u8] =
    br#"{"thresholdValue":80,"eventTime":1699999320,"hysteresis":5,"monitorId":"m1","notificationId":7,"notificationType":"notifyThresholdCrossing","objectInstance":"ManagedElement=ME1,GNBCUCPFunction=1,NRCellCU=7","observedValue":86,"performanceMetric":"RRC.ConnMax","thresholdDirection":"DOWN"}"#;

const SIDEWAYS: &[u8] =
    br#"{"eventTime":1699999320,"hysteresis":5,"monitorId":"m1","notificationId":7,"notificationType":"notifyThresholdCrossing","objectInstance":"ManagedElement=ME1,GNBCUCPFunction=1,NRCellCU=7","observedValue":86,"performanceMetric":"RRC.ConnMax","thresholdDirection":"up","thresholdValue":80}"#;

const READY: &[u8] =
    br#"{"eventTime":1700000101,"fileInfoList":[{"fileDataType":"Performance","fileExpirationTime":1700086500,"fileFormat":"JSON","fileLocation":"/files/A20231114.2200+0000-2215+0000_-job1_ME1","fileReadyTime":1700000100,"fileSize":772}],"notificationId":8,"notificationType":"notifyFileReady","objectInstance":"ManagedElement=ME1"}"#;

// The number of the notice, and the end of the crossing's period or the moment at which the file is ready.
fn said(alloc: Global, text: &[u8]) -> Result<(u64, u64), ReadError> {
    match read_notice(alloc, text)? {
        Told::FileReady(told) => Ok((told.number, told.file.ready)),
        Told::Crossing(told) => Ok((told.number, told.crossing.end)),
    }
}

#[test]
fn a_text_says_a_file_or_a_crossing(rt: HostRuntime) {
    let cases: [(&[u8], Result<(u64, u64), ReadError>); 5] = [
        (CROSSING, Ok((7, 1_699_999_320))),
        (READY, Ok((8, 1_700_000_100))),
        (SIDEWAYS, Err(KIND)),
        (b"{}", Err(KEYS)),
        (b"{", Err(ReadError::Refused(Refusal::NotJson))),
    ];
    for (text, want) in cases {
        assert_eq!(rt; said(rt.alloc(), text), want, "at {text:?}");
    }
}

// How many files a listing says.
fn listed(alloc: Global, text: &[u8]) -> Result<usize, ReadError> {
    let files = read_listing(alloc, text)?;
    Ok(files.len())
}

#[test]
fn a_listing_names_each_file_once(rt: HostRuntime) {
    let file =
        br#"{"fileInfoList":[{"fileDataType":"Performance","fileExpirationTime":1700086500,"fileFormat":"JSON","fileLocation":"/files/A20231114.2200+0000-2215+0000_-job1_ME1","fileReadyTime":1700000100,"fileSize":435}]}"#;
    let twice =
        br#"{"fileInfoList":[{"fileDataType":"Performance","fileExpirationTime":86401,"fileFormat":"JSON","fileLocation":"/files/A19700101.0000+0000-0001+0000_-job1_ME1","fileReadyTime":1,"fileSize":0},{"fileDataType":"Performance","fileExpirationTime":86402,"fileFormat":"JSON","fileLocation":"/files/A19700101.0000+0000-0001+0000_-job1_ME1","fileReadyTime":2,"fileSize":0}]}"#;
    let early =
        br#"{"fileInfoList":[{"fileDataType":"Performance","fileExpirationTime":86400,"fileFormat":"JSON","fileLocation":"/files/A19700101.0000+0000-0001+0000_-job1_ME1","fileReadyTime":1,"fileSize":0}]}"#;
    let nameless =
        br#"{"fileInfoList":[{"fileDataType":"Performance","fileExpirationTime":86401,"fileFormat":"JSON","fileLocation":"/files/A19700101.0000+0000-0000+0000_-job1_ME1","fileReadyTime":1,"fileSize":0}]}"#;
    let cases: [(&[u8], Result<usize, ReadError>); 5] = [
        (br#"{"fileInfoList":[]}"#, Ok(0)),
        (file, Ok(1)),
        (twice, Err(ReadError::Refused(Refusal::Disagrees))),
        (early, Err(ReadError::Refused(Refusal::Disagrees))),
        (nameless, Err(KIND)),
    ];
    for (text, want) in cases {
        assert_eq!(rt; listed(rt.alloc(), text), want, "at {text:?}");
    }
}

// The listing of one file, where it has the name and the moment of one.
fn listing_of(alloc: Global, file: &FileInfo) -> Result<Blob, AllocError> {
    let _size = file.size;
    if FileName::check(file.name.as_bytes()).is_ok() && file.ready <= LAST_MOMENT {
        listing_text(alloc, std::slice::from_ref(file))
    } else {
        Ok(Blob::new(alloc))
    }
}

#[test]
fn a_listing_is_written(rt: HostRuntime) -> Result<(), Fail> {
    let file = FileInfo {
        name: Text::from_slice(rt.alloc(), b"A20231114.2200+0000-2215+0000_-job1_ME1")?,
        size: 435,
        ready: 1_700_000_100,
    };
    let text = listing_of(rt.alloc(), &file)?;
    let want =
        br#"{"fileInfoList":[{"fileDataType":"Performance","fileExpirationTime":1700086500,"fileFormat":"JSON","fileLocation":"/files/A20231114.2200+0000-2215+0000_-job1_ME1","fileReadyTime":1700000100,"fileSize":435}]}"#;
    assert_eq!(rt; text.as_bytes(), want.as_slice());
    Ok(())
}
