use crate::{Item1, StoreError, decode, encode};
use pm_meas::Cell;
use std::test::Fail;

/// A Booked at 1699999260 that takes tick 28333320, with slot 0, n 2, sum 5, greatest 3, least 2, and no cursors.
const WORKED: [u8; 42] =
    *b"\x02\0\0\0\0\x65\x53\xee\x1c\0\0\0\0\x01\xb0\x55\x08\0\x01\0\0\0\0\0\x02\0\0\0\0\0\0\0\x05\0\0\0\x03\0\0\0\x02\0";

// The moment, the tick and the cells of a Booked without cursors.
fn booked(item: &Item1) -> Option<(u64, u64, &[(u16, Cell)])> {
    match item {
        Item1::Booked {
            moment,
            tick,
            cells,
            cursors,
        } if cursors.len() == 0 => Some((*moment, *tick, cells.as_slice())),
        _ => None,
    }
}

#[test]
fn a_booked_has_the_worked_bytes(rt: HostRuntime) -> Result<(), Fail> {
    let item = decode(rt.alloc(), &WORKED)
        .ok()
        .ok_or("the bytes are an item's")?;
    let bytes = encode(rt.alloc(), &item).ok().ok_or("memory is ample")?;
    assert_eq!(rt; bytes.as_bytes(), WORKED.as_slice());
    let (moment, tick, cells) = booked(&item).ok_or("the item is a Booked")?;
    let cell = Cell {
        n: 2,
        sum: 5,
        max: 3,
        min: 2,
    };
    assert_eq!(rt; (moment, tick), (1_699_999_260, 28_333_320));
    assert_eq!(rt; cells, [(0u16, cell)].as_slice());
    Ok(())
}

#[test]
fn an_item_of_each_kind_is_read_and_written_again(rt: HostRuntime) -> Result<(), Fail> {
    let cases: [&[u8]; 10] = [
        b"\x01\0\0\0\0\x65\x53\xee\x1c\x01\0\0\0\x04end\n",
        b"\x02\0\0\0\0\x65\x53\xee\x1c\0\0\0\0\x01\xb0\x55\x08\0\0\x02\0\0\0\0\0\0\0\x07\xff\xff\xff\xff\xff\xff\xff\xff",
        b"\x03\0\0\0\0\x65\x53\xee\x1c\x04job1\0\0\0\x02{}",
        b"\x04\0\0\0\0\x65\x53\xee\x1c\x04job1\x01",
        b"\x05\0\0\0\0\x65\x53\xee\x1c\x04job1",
        b"\x06\0\0\0\0\x65\x53\xee\x1c\x02m1\0\0\0\x02{}",
        b"\x07\0\0\0\0\x65\x53\xee\x1c\x02m1\0",
        b"\x08\0\0\0\0\x65\x53\xee\x1c\x02m1",
        b"\x09\0\0\0\0\x65\x53\xee\x1c\x01s\x1f\x90\x02/n",
        b"\x0a\0\0\0\0\x65\x53\xee\x1c\x01s",
    ];
    for bytes in cases {
        let Ok(item) = decode(rt.alloc(), bytes) else {
            return Err(Fail::from("the bytes are an item's"));
        };
        let again = encode(rt.alloc(), &item).ok().ok_or("memory is ample")?;
        assert_eq!(rt; again.as_bytes(), bytes);
        assert_eq!(rt; item.moment(), 1_699_999_260);
    }
    Ok(())
}

#[test]
fn damaged_items_are_refused(rt: HostRuntime) {
    let cases: [(&[u8], &str); 15] = [
        (b"", "no byte"),
        (b"\x05\0\0\0\0\x65\x53\xee", "half a moment"),
        (b"\0\0\0\0\0\x65\x53\xee\x1c\x04job1", "the kind 0"),
        (b"\x0b\0\0\0\0\x65\x53\xee\x1c\x04job1", "the kind 11"),
        (
            b"\x05\0\0\0\x3a\xff\xf4\x41\x80\x04job1",
            "a moment past the last",
        ),
        (b"\x05\0\0\0\0\x65\x53\xee\x1c\x05job1", "a byte too few"),
        (b"\x05\0\0\0\0\x65\x53\xee\x1c\x04job11", "a byte too many"),
        (b"\x05\0\0\0\0\x65\x53\xee\x1c\xffjob1", "a long name"),
        (b"\x04\0\0\0\0\x65\x53\xee\x1c\x04job1\x02", "a state of 2"),
        (
            b"\x03\0\0\0\0\x65\x53\xee\x1c\x04job1\xff\xff\xff\xff{}",
            "a body of 4 GB",
        ),
        (
            b"\x01\0\0\0\0\x65\x53\xee\x1c\x02\0\0\0\x04end\n",
            "another version",
        ),
        (
            b"\x02\0\0\0\0\x65\x53\xee\x1c\0\0\0\0\x01\xb0\x55\x08\xff\xff\0\0\0",
            "cells that are not there",
        ),
        (
            b"\x02\0\0\0\0\x65\x53\xee\x1c\0\0\0\0\x01\xb0\x55\x08\0\x01\0\0\0\0\0\0\0\0\0\0\0\0\0\x05\0\0\0\x03\0\0\0\x02\0",
            "a cell without values",
        ),
        (
            b"\x02\0\0\0\0\x65\x53\xee\x1c\0\0\0\0\x01\xb0\x55\x08\0\x02\0\x01\0\0\0\x01\0\0\0\0\0\0\0\x05\0\0\0\x05\0\0\0\x05\0\x01\0\0\0\x01\0\0\0\0\0\0\0\x05\0\0\0\x05\0\0\0\x05\0",
            "a slot twice",
        ),
        (
            b"\x02\0\0\0\0\x65\x53\xee\x1c\0\0\0\0\x01\xb0\x55\x08\0\0\x01\0\0\0\0\0\0\0",
            "half a cursor",
        ),
    ];
    for (bytes, what) in cases {
        assert!(rt;
            matches!(decode(rt.alloc(), bytes), Err(StoreError::Bad)),
            "{what}"
        );
    }
}

#[test]
fn a_refusal_says_what_was_wanted(rt: HostRuntime) -> Result<(), Fail> {
    let text = format!(in rt.alloc(); "{}", StoreError::Bad)?;
    assert_eq!(rt; text.as_str(), "the bytes are not those of a stored item");
    Ok(())
}
