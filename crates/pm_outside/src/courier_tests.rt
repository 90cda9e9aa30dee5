//! How a courier in memory answers a list of calls.
use crate::*;
use std::test::Fail;

#[test]
fn a_courier_in_memory_fails_by_number_and_by_room(rt: HostRuntime) -> Result<(), Fail> {
    let mut courier = MemCourier::new(rt.alloc(), 2, 6, &[1])?;
    let posts: [(&[u8], &[u8], Result<(), Failed>, usize, u64); 5] = [
        (b"/a", b"b", Err(Failed), 0, 1),
        (b"/a", b"b", Ok(()), 1, 1),
        (b"/a", b"bc", Err(Failed), 1, 2),
        (b"/a", b"c", Ok(()), 2, 2),
        (b"", b"", Err(Failed), 2, 3),
    ];
    for (path, body, answer, count, faults) in posts {
        assert_eq!(rt; courier.post(80, path, body), answer, "at {body:?}");
        assert_eq!(rt; courier.count(), count, "at {body:?}");
        assert_eq!(rt; courier.faults(), faults, "at {body:?}");
    }
    if courier.count() == 2 {
        let last = courier.at(1);
        assert_eq!(rt; last.port, 80);
        assert_eq!(rt; last.path, b"/a".as_slice());
        assert_eq!(rt; last.body, b"c".as_slice());
    }
    Ok(())
}
