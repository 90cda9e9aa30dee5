//! Histories by a fixed recurrence: starts of the program, gaps, events, and jobs and monitors that are made, changed and deleted.
ghost use Rattle.std.specs.Prelude.{◌<◌};

use crate::run::beside;
use std::alloc::{AllocError, Global};
use std::process::Abort;
use std::test::Fail;

const INVENTORY: &str = "object ManagedElement=1
object ManagedElement=1,GNBCUCPFunction=1
object ManagedElement=1,GNBCUCPFunction=1,NRCellCU=1
object ManagedElement=1,GNBCUCPFunction=1,NRCellCU=2
object ManagedElement=1,GNBDUFunction=1
object ManagedElement=1,GNBDUFunction=1,NRCellDU=1
measure A.Sum NRCellCU CC SUM
measure A.Mean NRCellCU GAUGE MEAN
measure A.Max NRCellDU DER MAX 2
measure A.Min NRCellDU SI MIN
end
";

/// Numbers by a fixed recurrence.
#[derive(Drop)]
struct Numbers {
    state: u32,
}

impl Numbers {
    fn below(&mut self, end: u32) -> u32
        requires { 0 < end }
        ensures { result < end }
    {
        self.state = self
            .state
            .wrapping_mul(1_664_525)
            .wrapping_add(1_013_904_223);
        (self.state >> 16) % end
    }
}

const JOBS: [&str; 3] = ["a", "b", "c"];

const MONITORS: [&str; 2] = ["m", "n"];

// The slots, as the words of an event.
const SLOTS: [&str; 6] = ["2 0", "3 0", "2 1", "3 1", "5 2", "5 3"];

// A granularity period and a reporting period.
const PERIODS: [&str; 8] = [
    "60 1", "60 2", "60 3", "300 5", "300 10", "900 15", "60 5", "300 15",
];

const GRANULARITIES: [&str; 4] = ["60", "60", "300", "900"];

const STATES: [&str; 4] = ["UNLOCKED", "UNLOCKED", "UNLOCKED", "LOCKED"];

// Metrics and objects.
const MEASURED: [&str; 6] = ["0 2", "1 2,3", "0,1,2,3 2,3,5", "2,3 5", "0,2 3,5", "2 2"];

// Objects and thresholds.
const WATCHED: [&str; 6] = [
    "2,3 0:UP:5:2",
    "2 0:DOWN:3:0",
    "5 2:UP_AND_DOWN:6:2 3:UP_AND_DOWN:4:1",
    "2,3,5 0,1,2:UP_AND_DOWN:5:1",
    "3,5 1:UP:7:3 1,3:DOWN:7:3",
    "2,3 1:UP_AND_DOWN:4:0",
];

fn job(text: &mut String, numbers: &mut Numbers, moment: u64) -> Result<(), AllocError> {
    let id = JOBS[numbers.below(3) as usize];
    match numbers.below(7) {
        0..4 => {
            let periods = PERIODS[numbers.below(8) as usize];
            let state = STATES[numbers.below(4) as usize];
            let measured = MEASURED[numbers.below(6) as usize];
            writeln!(text, "job {moment} {id} {periods} {state} {measured}")
        }
        4 => writeln!(text, "lock {moment} {id}"),
        5 => writeln!(text, "unlock {moment} {id}"),
        _ => writeln!(text, "delete {moment} {id}"),
    }
}

fn monitor(text: &mut String, numbers: &mut Numbers, moment: u64) -> Result<(), AllocError> {
    let id = MONITORS[numbers.below(2) as usize];
    match numbers.below(7) {
        0..4 => {
            let granularity = GRANULARITIES[numbers.below(4) as usize];
            let state = STATES[numbers.below(4) as usize];
            let watched = WATCHED[numbers.below(6) as usize];
            writeln!(
                text,
                "monitor {moment} {id} {granularity} {state} {watched}"
            )
        }
        4 => writeln!(text, "mlock {moment} {id}"),
        5 => writeln!(text, "munlock {moment} {id}"),
        _ => writeln!(text, "mdelete {moment} {id}"),
    }
}

fn event(text: &mut String, numbers: &mut Numbers, moment: u64) -> Result<(), AllocError> {
    let slot = SLOTS[numbers.below(6) as usize];
    let value = numbers.below(12);
    let registered = numbers.below(8).min(1);
    writeln!(text, "event {moment} {slot} {value} {registered}")
}

// How many seconds pass: mostly about a tick, now and then many ticks, rarely some hours.
fn pause(numbers: &mut Numbers) -> u32 {
    match numbers.below(500) {
        0 => numbers.below(20_000),
        1..20 => numbers.below(900),
        20..60 => 60,
        60..130 => 0,
        _ => numbers.below(90),
    }
}

// A start of the program, or mostly a request.
fn opening(text: &mut String, numbers: &mut Numbers, moment: u64) -> Result<(), AllocError> {
    match numbers.below(30) {
        0 => writeln!(text, "boot {moment}"),
        _ => writeln!(text, "now {moment}"),
    }
}

fn entries(text: &mut String, numbers: &mut Numbers) -> Result<(), AllocError> {
    let mut moment = 1_699_999_200 + u64::from(numbers.below(1_200));
    writeln!(text, "boot {moment}")?;
    for _ in 0..48u8 {
        moment = moment.saturating_add(u64::from(pause(numbers)));
        opening(text, numbers, moment)?;
        match numbers.below(10) {
            0 | 1 => job(text, numbers, moment)?,
            2 => monitor(text, numbers, moment)?,
            _ => event(text, numbers, moment)?,
        }
    }
    moment = moment.saturating_add(u64::from(numbers.below(1_800)));
    opening(text, numbers, moment)
}

/// How often a word stands in what was told.
fn count(lines: &[u8], word: &[u8]) -> usize {
    lines
        .split(|b| *b == b' ' || *b == b'\n')
        .filter(|w| *w == word)
        .count()
}

// What was told of some histories.
#[derive(Drop)]
struct Words {
    files: usize,
    suspect: usize,
    nulls: usize,
    ups: usize,
    downs: usize,
}

impl Words {
    fn add(&mut self, lines: &[u8]) {
        self.files = self.files.saturating_add(count(lines, b"file"));
        self.suspect = self.suspect.saturating_add(count(lines, b"suspect"));
        self.nulls = self.nulls.saturating_add(count(lines, b"null"));
        self.ups = self.ups.saturating_add(count(lines, b"UP"));
        self.downs = self.downs.saturating_add(count(lines, b"DOWN"));
    }
}

// The product and the definitions tell the same of a history.
fn compare(
    rt: &impl Abort,
    alloc: Global,
    numbers: &mut Numbers,
    at: u16,
    words: &mut Words,
) -> Result<(), Fail> {
    let mut text = String::new(alloc);
    text.push_str(INVENTORY)?;
    entries(&mut text, numbers)?;
    let both = beside(alloc, text.as_bytes());
    let (closing, want) = both.ok().ok_or("a history is told")?;
    let told = closing.lines(alloc);
    let told = told.ok().ok_or("there is memory for the lines")?;
    words.add(&want);
    let told = String::from_utf8_lossy(alloc, &told)?;
    let want = String::from_utf8_lossy(alloc, &want)?;
    assert_eq!(rt; told.as_str(), want.as_str(), "at {at} of\n{text}");
    Ok(())
}

// A hundred histories.
fn compare_each(rt: &impl Abort, alloc: Global, seed: u32) -> Result<(), Fail> {
    let mut numbers = Numbers { state: seed };
    let mut words = Words {
        files: 0,
        suspect: 0,
        nulls: 0,
        ups: 0,
        downs: 0,
    };
    for at in 0..100u16 {
        compare(rt, alloc, &mut numbers, at, &mut words)?;
    }
    assert!(rt; words.files > 300, "{} files", words.files);
    assert!(rt; words.suspect > 300, "{} suspect", words.suspect);
    assert!(rt; words.nulls > 30, "{} null", words.nulls);
    assert!(rt; words.ups > 30, "{} up", words.ups);
    assert!(rt; words.downs > 30, "{} down", words.downs);
    Ok(())
}

#[test]
fn the_product_tells_of_a_hundred_histories_what_the_definitions_tell(
    rt: HostRuntime,
) -> Result<(), Fail> {
    compare_each(&rt, rt.alloc(), 1)
}

#[test]
fn the_product_tells_of_a_second_hundred_what_the_definitions_tell(
    rt: HostRuntime,
) -> Result<(), Fail> {
    compare_each(&rt, rt.alloc(), 2)
}

#[test]
fn the_product_tells_of_a_third_hundred_what_the_definitions_tell(
    rt: HostRuntime,
) -> Result<(), Fail> {
    compare_each(&rt, rt.alloc(), 3)
}
