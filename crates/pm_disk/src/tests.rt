use super::*;
use pm_outside::Failed;
use std::fs;
use std::os::unix::fs::symlink;
use std::process::Abort;
use std::test::Fail;

fn write(rt: &impl Abort, disk: &mut MemDisk, at: u64, bytes: &[u8]) -> Result<(), Failed> {
    assert!(rt; at as usize <= disk.bytes(Area::First).len());
    disk.write_at(Area::First, at, bytes)
}

fn cut(rt: &impl Abort, disk: &mut MemDisk, to: u64) -> Result<(), Failed> {
    assert!(rt; to as usize <= disk.bytes(Area::First).len());
    disk.cut(Area::First, to)
}

fn read(rt: &impl Abort, disk: &mut MemDisk, at: u64, buf: &mut [u8]) -> Result<(), Failed> {
    assert!(rt; buf.len() <= 65536);
    assert!(rt; at <= 65536);
    assert!(rt; at as usize + buf.len() <= disk.bytes(Area::First).len());
    disk.read(Area::First, at, buf)
}

#[test]
fn an_area_reads_what_was_written_over_and_past_its_end(rt: HostRuntime) -> Result<(), Fail> {
    let mut disk = MemDisk::new(rt.alloc(), 100, &[])?;
    write(&rt, &mut disk, 0, b"abcd")?;
    write(&rt, &mut disk, 1, b"XY")?;
    assert_eq!(rt; disk.bytes(Area::First), b"aXYd".as_slice());
    write(&rt, &mut disk, 3, b"123")?;
    assert_eq!(rt; disk.bytes(Area::First), b"aXY123".as_slice());
    write(&rt, &mut disk, 6, b"")?;
    cut(&rt, &mut disk, 2)?;
    disk.sync(Area::First)?;
    assert_eq!(rt; disk.bytes(Area::First), b"aX".as_slice());
    assert_eq!(rt; disk.len(Area::First)?, 2);
    let mut buf = [0; 1];
    read(&rt, &mut disk, 1, &mut buf)?;
    assert_eq!(rt; buf, *b"X");
    assert_eq!(rt; disk.bytes(Area::Second), b"".as_slice());
    assert_eq!(rt; disk.faults(), 0);
    Ok(())
}

#[test]
fn a_call_fails_by_its_number_and_by_the_room(rt: HostRuntime) -> Result<(), Fail> {
    let mut disk = MemDisk::new(rt.alloc(), 6, &[2, 4])?;
    write(&rt, &mut disk, 0, b"abc")?;
    assert_eq!(rt; write(&rt, &mut disk, 0, b"x"), Err(Failed));
    assert_eq!(rt;
        write(&rt, &mut disk, 3, b"def"),
        Err(Failed),
        "the failed write has had its room"
    );
    assert_eq!(rt; disk.sync(Area::First), Err(Failed));
    write(&rt, &mut disk, 3, b"de")?;
    disk.sync(Area::First)?;
    assert_eq!(rt; disk.bytes(Area::First), b"abcde".as_slice());
    assert_eq!(rt; disk.faults(), 3);
    Ok(())
}

#[test]
fn a_call_past_the_record_fails(rt: HostRuntime) -> Result<(), Fail> {
    let mut disk = MemDisk::new(rt.alloc(), 1, &[])?;
    for _ in 0..65536 {
        disk.sync(Area::Second)?;
    }
    assert_eq!(rt; disk.faults(), 0);
    assert_eq!(rt; disk.sync(Area::Second), Err(Failed));
    assert_eq!(rt; disk.len(Area::First), Err(Failed));
    assert_eq!(rt; disk.faults(), 2);
    Ok(())
}

#[test]
fn a_file_keeps_what_was_written_and_has_one_holder(rt: HostRuntime) -> Result<(), Fail> {
    let mut buf = [0; 3];
    {
        let mut disk = FileDisk::open(&rt);
        disk.cut(Area::First, 0)?;
        disk.write_at(Area::First, 0, b"abcdefgh")?;
        disk.write_at(Area::First, 2, b"XYZ")?;
        disk.cut(Area::First, 6)?;
        disk.sync(Area::First)?;
        assert_eq!(rt; disk.len(Area::First)?, 6);
        assert_eq!(rt; disk.faults(), 0);

        // The second area is no file yet.
        assert_eq!(rt; disk.len(Area::Second), Err(Failed));
        assert_eq!(rt; disk.write_at(Area::Second, 0, b"x"), Err(Failed));
        assert_eq!(rt; disk.sync(Area::Second), Err(Failed));
        assert_eq!(rt; disk.faults(), 3);

        // A second holder has no file either, and changes none.
        let mut other = FileDisk::open(&rt);
        assert_eq!(rt; other.len(Area::First), Err(Failed));
        assert_eq!(rt; other.read(Area::First, 0, &mut buf), Err(Failed));
        assert_eq!(rt; other.write_at(Area::First, 0, b"x"), Err(Failed));
        assert_eq!(rt; other.cut(Area::First, 0), Err(Failed));
        assert_eq!(rt; other.sync(Area::First), Err(Failed));
        assert_eq!(rt; other.faults(), 5);
        assert!(rt; matches!(other.cause(), Some(FileFault::Held)));
    }
    let mut disk = FileDisk::open(&rt);
    assert_eq!(rt; disk.len(Area::First)?, 6);
    disk.read(Area::First, 1, &mut buf)?;
    assert_eq!(rt; buf, *b"bXY");
    disk.read(Area::First, 3, &mut buf)?;
    assert_eq!(rt; buf, *b"YZf");
    assert_eq!(rt;
        disk.read(Area::First, 4, &mut buf),
        Err(Failed),
        "past the end"
    );
    assert_eq!(rt; disk.faults(), 1);
    fs::remove_file(&rt, FIRST_FILE)?;

    // A link is not followed, and makes no file elsewhere.
    symlink(&rt, "elsewhere", FIRST_FILE)?;
    let mut linked = FileDisk::open(&rt);
    assert_eq!(rt; linked.len(Area::First), Err(Failed));
    assert!(rt; matches!(linked.cause(), Some(FileFault::NotRegular)));
    assert!(rt; fs::metadata(&rt, "elsewhere").is_err());
    fs::remove_file(&rt, FIRST_FILE)?;
    Ok(())
}
