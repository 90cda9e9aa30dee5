use crate::run::{Asked, told};
use std::test::Fail;

#[test]
fn the_items_of_a_history_are_lines_of_digits(rt: HostRuntime) -> Result<(), Fail> {
    let input: &[u8] = b"object ManagedElement=ME1
measure A.b ManagedElement CC SUM
end
boot 1699999200
event 1699999200 0 0 2 1
event 1699999200 0 0 3 1
unlock 1699999200 job1
now 1699999230
now 1699999260
";
    let want: &[u8] =
        b"01000000006553ede001000000406f626a656374204d616e61676564456c656d656e743d4d45310a6d65617375726520412e62204d616e61676564456c656d656e742043432053554d0a656e640a
04000000006553ede0046a6f623101
02000000006553ee1c0000000001b0550800010000000000020000000000000005000000030000000200
";
    let lines = told(rt.alloc(), Asked::Items, input)
        .ok()
        .ok_or("the input is a history")?;
    assert_eq!(rt; lines.as_slice(), want);
    Ok(())
}
