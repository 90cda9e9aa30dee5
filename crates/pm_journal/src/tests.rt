ghost use Rattle.std.specs.Prelude.{List, ℕ, OnOk, IfOk};
ghost use Rattle.pm_disk.specs.Moments.{of};
ghost use Rattle.pm_disk.specs.Memory.{told_of};
ghost use Rattle.pm_journal.specs.Journal.{area_of, IsUsable, IsReady, IsTied};

use super::*;
use pm_disk::{Area, Disk, MemDisk};
use pm_outside::Failed;
use std::alloc::Global;
use std::process::Abort;
use std::test::Fail;

const LIMIT: u64 = 4294967296;

// Puts these bytes on the disk, in the first area.
fn put(rt: &impl Abort, disk: &mut MemDisk, at: u64, bytes: &[u8]) -> Result<(), Failed> {
    assert!(rt; at as usize <= disk.bytes(Area::First).len());
    disk.write_at(Area::First, at, bytes)?;
    disk.sync(Area::First)
}

// Reads a journal to its end.
fn read_all<D: Disk>(
    alloc: Global,
    disk: &mut D,
    journal: &mut Journal,
) -> Result<Vec<Item>, JournalError>
    requires usable { IsUsable journal.old }
    requires tied { D.IsTold → IsTied journal.old (of (D.told disk.old).now (area_of journal.old)) }
    ensures ready { OnOk result (IsReady journal.new) }
    ensures tied { D.IsTold → OnOk result (IsTied journal.new (of (D.told disk.new).now (area_of journal.new))) }
{
    let mut items = Vec::new(alloc);
    for _turn in 0..100 {
        match journal.next(disk)? {
            Some(item) => keep(&mut items, item)?,
            None => return Ok(items),
        }
    }
    Err(JournalError::Memory)
}

fn keep(items: &mut Vec<Item>, item: Item) -> Result<(), JournalError> {
    match items.push(item) {
        Ok(()) => Ok(()),
        Err(_) => Err(JournalError::Memory),
    }
}

#[test]
fn an_area_of_nine_bytes_is_fresh_and_one_of_ten_without_the_mark_is_foreign(
    rt: HostRuntime,
) -> Result<(), Fail> {
    let mut disk = MemDisk::new(rt.alloc(), 1000, &[])?;
    put(&rt, &mut disk, 0, b"123456789")?;
    let journal = Journal::open(rt.alloc(), &mut disk, Area::First, LIMIT)?;
    assert_eq!(rt; journal.length(), 9);
    assert_eq!(rt; disk.bytes(Area::First), b"PMDLOG1\n\0".as_slice());
    let mut disk = MemDisk::new(rt.alloc(), 1000, &[])?;
    put(&rt, &mut disk, 0, b"1234567890")?;
    let foreign = Journal::open(rt.alloc(), &mut disk, Area::First, LIMIT);
    assert_eq!(rt; foreign.err(), Some(JournalError::Foreign));
    Ok(())
}

#[test]
fn a_journal_of_sixteen_bytes_takes_one_item_of_two(rt: HostRuntime) -> Result<(), Fail> {
    let mut disk = MemDisk::new(rt.alloc(), 1000, &[])?;
    let mut journal = Journal::open(rt.alloc(), &mut disk, Area::First, 16)?;
    assert_eq!(rt; disk.bytes(Area::First), b"PMDLOG1\n\0".as_slice());
    assert_eq!(rt; read_all(rt.alloc(), &mut disk, &mut journal)?.len(), 0);
    journal.append(&mut disk, b"AB")?;
    assert_eq!(rt;
        disk.bytes(Area::First),
        b"PMDLOG1\n\x01\0\0\0\x02AB\0".as_slice()
    );
    assert_eq!(rt; journal.length(), 16);
    let full = journal.append(&mut disk, b"C");
    assert_eq!(rt;
        full.err(),
        Some(JournalError::StoreFull {
            length: 16,
            need: 22
        })
    );
    let need = 22;
    let message = format!(in rt.alloc(); "{}", JournalError::StoreFull { length: 16, need })?;
    assert_eq!(rt;
        message.as_str(),
        "the area has 16 bytes and would need 22, which passes the limit"
    );
    put(&rt, &mut disk, 12, b"\x03")?;
    let mut journal = Journal::open(rt.alloc(), &mut disk, Area::First, 16)?;
    let garbled = read_all(rt.alloc(), &mut disk, &mut journal);
    assert_eq!(rt; garbled.err(), Some(JournalError::Garbled { offset: 8 }));
    Ok(())
}

// Opens an area that is `before`, and reads it: the offsets of its items, their bytes joined, and what it is afterwards.
fn check_reading(
    rt: &impl Abort,
    alloc: Global,
    before: &[u8],
    offsets: &[u64],
    joined: &[u8],
    after: &[u8],
) -> Result<(), Fail> {
    let mut disk = MemDisk::new(alloc, 1000, &[])?;
    put(rt, &mut disk, 0, before)?;
    let mut journal = Journal::open(alloc, &mut disk, Area::First, LIMIT)?;
    let items = read_all(alloc, &mut disk, &mut journal)?;
    let mut all = Vec::new(alloc);
    assert_eq!(rt; items.len(), offsets.len());
    for (item, offset) in items.iter().zip(offsets) {
        assert_eq!(rt; item.offset, *offset);
        all.extend_from_slice(item.bytes.as_bytes())?;
    }
    assert_eq!(rt; all.as_slice(), joined);
    assert_eq!(rt; disk.bytes(Area::First), after);
    Ok(())
}

#[test]
fn what_follows_a_closed_gate_is_cut_off(rt: HostRuntime) -> Result<(), Fail> {
    let one = b"PMDLOG1\n\x01\0\0\0\x01a\0";
    let two = b"PMDLOG1\n\x01\0\0\0\x01a\x01\0\0\0\0\xff";
    check_reading(
        &rt,
        rt.alloc(),
        b"PMDLOG1\n\x02\0\0\0\x01a\0",
        &[],
        b"",
        b"PMDLOG1\n\x02",
    )?;
    check_reading(
        &rt,
        rt.alloc(),
        b"PMDLOG1\n\x01\0\0\0\x01a\0xyz",
        &[8],
        b"a",
        one,
    )?;
    check_reading(&rt, rt.alloc(), two, &[8, 14], b"a", two)?;
    check_reading(&rt, rt.alloc(), b"PMDLOG1", &[], b"", b"PMDLOG1\n\0")
}

const ITEMS: [&[u8]; 3] = [b"one", b"", b"three"];

// Opens a journal, adds the three items and opens it again, as far as the disk does it. How many items were acknowledged.
fn run(alloc: Global, disk: &mut MemDisk) -> usize {
    match Journal::open(alloc, disk, Area::First, LIMIT) {
        Ok(journal) => read_and_add(alloc, disk, journal),
        Err(_) => 0,
    }
}

fn read_and_add(alloc: Global, disk: &mut MemDisk, mut journal: Journal) -> usize
    requires usable { IsUsable journal }
    requires tied { IsTied journal (of (told_of disk.old).now (area_of journal)) }
{
    match read_all(alloc, disk, &mut journal) {
        Ok(_) => add_all(alloc, disk, journal),
        Err(_) => 0,
    }
}

fn add_all(alloc: Global, disk: &mut MemDisk, mut journal: Journal) -> usize
    requires ready { IsReady journal }
    requires tied { IsTied journal (of (told_of disk.old).now (area_of journal)) }
{
    match journal.append(disk, ITEMS[0]) {
        Ok(()) => {}
        Err(_) => return 0,
    }
    match journal.append(disk, ITEMS[1]) {
        Ok(()) => {}
        Err(_) => return 1,
    }
    match journal.append(disk, ITEMS[2]) {
        Ok(()) => {}
        Err(_) => return 2,
    }
    let _again = Journal::open(alloc, disk, Area::First, LIMIT);
    3
}

#[test]
fn whichever_call_fails_each_acknowledged_item_is_there(rt: HostRuntime) -> Result<(), Fail> {
    let mut last = 0;
    for call in 1..40 {
        let mut disk = MemDisk::new(rt.alloc(), 1000, &[call])?;
        let acknowledged = run(rt.alloc(), &mut disk);
        if disk.faults() == 0 {
            break;
        }
        last = call;
        let mut journal = Journal::open(rt.alloc(), &mut disk, Area::First, LIMIT)?;
        let items = read_all(rt.alloc(), &mut disk, &mut journal)?;
        assert!(rt; acknowledged <= items.len(), "at call {call}");
        assert!(rt; items.len() <= acknowledged + 1, "at call {call}");
        for (item, want) in items.iter().zip(ITEMS) {
            assert_eq!(rt; item.bytes.as_bytes(), want);
        }
    }
    // An open of an empty area has 5 calls, its reading 3, an append 6, and an open of an area with the mark 3.
    assert_eq!(rt; last, 29);
    Ok(())
}
