use super::*;
use pm_disk::MemDisk;
use std::alloc::Global;
use std::process::Abort;
use std::test::Fail;

const NAME: &[u8] = b"A20231114.2200+0000-2215+0000_-job1_ME1";

const TEXT: &[u8] =
    br#"{"fileFooter":{"endTime":1700000100},"fileHeader":{"beginTime":1699999200,"fileFormatVersion":"PM1","jobId":"job1","senderName":"ManagedElement=ME1"},"measData":[{"beginTime":1699999200,"endTime":1700000100,"granularityPeriod":900,"measInfo":[{"measTypes":["RRC.ConnEstabAtt.mo-Data"],"measValues":[{"measObjInstId":"ManagedElement=ME1,GNBCUCPFunction=1,NRCellCU=7","measResults":[5],"suspectFlag":false}],"objectClass":"NRCellCU"}]}]}"#;

const NOTICE: &[u8] =
    br#"{"eventTime":1700000100,"fileInfoList":[{"fileDataType":"Performance","fileExpirationTime":1700086500,"fileFormat":"JSON","fileLocation":"/files/A20231114.2200+0000-2215+0000_-job1_ME1","fileReadyTime":1700000100,"fileSize":1}],"notificationId":0,"notificationType":"notifyFileReady","objectInstance":"ManagedElement=ME1"}"#;

const LISTING: &[u8] =
    br#"{"fileInfoList":[{"fileDataType":"Performance","fileExpirationTime":1700086500,"fileFormat":"JSON","fileLocation":"/files/A20231114.2200+0000-2215+0000_-job1_ME1","fileReadyTime":1700000100,"fileSize":1}]}"#;

// Whether nothing is wanted once the listing is read.
fn has_all(alloc: Global, disk: &mut MemDisk) -> Result<bool, CollectError> {
    let mut collector = Collector::open(alloc, disk)?;
    collector.listing(LISTING)?;
    Ok(collector.next_fetch().is_none())
}

// What is answered where a file that isn't wanted is given.
fn unwanted(alloc: Global, disk: &mut MemDisk) -> Result<(), CollectError> {
    let mut collector = Collector::open(alloc, disk)?;
    collector.file(disk, NAME, TEXT)
}

#[test]
fn a_store_without_files_wants_all_that_are_listed(rt: HostRuntime) -> Result<(), Fail> {
    let mut disk = MemDisk::new(rt.alloc(), 2000, &[])?;
    assert_eq!(rt;
        unwanted(rt.alloc(), &mut disk).err(),
        Some(CollectError::C4)
    );
    let mut collector = Collector::open(rt.alloc(), &mut disk)?;
    assert_eq!(rt; collector.notice(b"{}").err(), Some(CollectError::C1));
    assert_eq!(rt; collector.listing(b"[]").err(), Some(CollectError::C2));
    collector.notice(NOTICE)?;
    assert_eq!(rt; collector.next_fetch(), Some(NAME));
    assert!(rt; !has_all(rt.alloc(), &mut disk)?);
    Ok(())
}

#[test]
fn a_file_that_is_wanted_is_held_from_then_on(rt: HostRuntime) -> Result<(), Fail> {
    let mut disk = MemDisk::new(rt.alloc(), 2000, &[])?;
    let mut collector = Collector::open(rt.alloc(), &mut disk)?;
    collector.notice(NOTICE)?;
    collector.file(&mut disk, NAME, TEXT)?;
    assert_eq!(rt; collector.next_fetch(), None);
    let collector = Collector::open(rt.alloc(), &mut disk)?;
    assert_eq!(rt; collector.count(), 1);
    assert_eq!(rt; collector.held(0), (NAME, TEXT.len() as u64));
    assert_eq!(rt; collector.load(rt.alloc(), &mut disk, 0)?.as_bytes(), TEXT);
    assert!(rt; has_all(rt.alloc(), &mut disk)?);
    Ok(())
}
