ghost use Rattle.std.specs.Prelude.{◌≤◌};

use crate::direction::Direction;
use crate::plain;
use crate::watch::Watch;
use std::process::Abort;
use std::test::Fail;

// Limits around which the five values 3 to 7 lie, and all directions that a threshold may keep.
const LIMITS: [(u64, u64); 3] = [(6, 4), (5, 5), (5, 4)];

const KEPT: [(bool, bool); 3] = [(true, true), (true, false), (false, true)];

// The values from 3 to 7 that the digits of a number name in base 5. All numbers below 5^6 name all sequences.
fn sequence(number: u32) -> [u64; 6] {
    let mut rest = number;
    let mut values = [0u64; 6];
    for value in values.iter_mut() {
        *value = 3 + u64::from(rest % 5);
        rest /= 5;
    }
    values
}

// Whether each answer is that of the definition, and so is that of a watch that is resumed before each value.
fn agrees(high: u64, low: u64, up: bool, down: bool, values: &[u64]) -> bool
    requires { low ≤ high }
{
    let mut watch = Watch::new(high, low, up, down);
    for (place, value) in values.iter().enumerate() {
        let flags = watch.flags();
        if flags > 3 || flags != plain::flags_of(high, low, &values[..place]) {
            return false;
        }
        let mut resumed = Watch::resume(high, low, up, down, flags);
        let want = plain::crossing(high, low, up, down, values, place);
        if watch.step(*value) != want || resumed.step(*value) != want || resumed != watch {
            return false;
        }
    }
    true
}

#[test]
fn each_step_of_each_short_sequence_is_answered_by_the_definition(rt: HostRuntime) {
    for (high, low) in LIMITS {
        for (up, down) in KEPT {
            for number in 0..15_625u32 {
                let values = sequence(number);
                assert!(rt;
                    low <= high && agrees(high, low, up, down, &values),
                    "at {values:?}, {high}, {low}, {up}, {down}"
                );
            }
        }
    }
}

#[test]
fn a_threshold_with_a_hysteresis_is_crossed_up_and_down(rt: HostRuntime) -> Result<(), Fail> {
    let values = [70, 86, 84, 88, 75, 85];
    let want = [
        None,
        Some(Direction::Up),
        None,
        None,
        Some(Direction::Down),
        Some(Direction::Up),
    ];
    let mut watch = Watch::new(85, 75, true, true);
    for (value, want) in values.into_iter().zip(want) {
        assert_eq!(rt; watch.step(value), want, "at {value}");
    }
    let all = plain::crossings(rt.alloc(), 85, 75, true, true, &values)?;
    assert_eq!(rt; all.as_slice(), want.as_slice());
    Ok(())
}

#[test]
fn a_threshold_without_a_hysteresis_is_rearmed_under_it(rt: HostRuntime) -> Result<(), Fail> {
    let values = [10, 10, 11, 10, 9, 10];
    let want = [
        Some(Direction::Up),
        None,
        None,
        Some(Direction::Down),
        None,
        Some(Direction::Up),
    ];
    let mut watch = Watch::new(10, 10, true, true);
    for (value, want) in values.into_iter().zip(want) {
        assert_eq!(rt; watch.step(value), want, "at {value}");
    }
    let all = plain::crossings(rt.alloc(), 10, 10, true, true, &values)?;
    assert_eq!(rt; all.as_slice(), want.as_slice());
    Ok(())
}

#[test]
fn a_restart_forgets_the_values(rt: HostRuntime) {
    let mut watch = Watch::new(85, 75, true, true);
    assert_eq!(rt; watch.step(90), Some(Direction::Up));
    watch.restart();
    assert_eq!(rt; watch, Watch::new(85, 75, true, true));
    assert_eq!(rt; watch.step(70), None);
    assert_eq!(rt; watch.step(u64::MAX), Some(Direction::Up));
    assert_eq!(rt; watch.step(0), Some(Direction::Down));
}

#[test]
fn flags_that_no_sequence_leaves_are_taken_by_their_numbers(rt: HostRuntime) {
    let (up, down) = (Some(Direction::Up), Some(Direction::Down));
    let cases = [
        // Nothing rearmed before the first value, which is high all the same.
        (0u8, [90u64, 70, 90], [None, down, up]),
        (0, [70, 90, 70], [None, up, down]),
        (3, [90, 90, 70], [up, None, down]),
        (3, [80, 70, 90], [None, down, up]),
    ];
    for (flags, values, want) in cases {
        assert!(rt; flags <= 3);
        let mut watch = Watch::resume(85, 75, true, true, flags);
        for (value, want) in values.into_iter().zip(want) {
            assert_eq!(rt; watch.step(value), want, "at {value} with {flags}");
        }
    }
}
