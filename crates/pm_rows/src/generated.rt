//! Inputs by a fixed recurrence: small inventories, and events of their slots and of others.
ghost use Rattle.std.specs.Prelude.{◌<◌};

use crate::tally::compare;
use pm_base::Code;
use pm_tally::TallyEnd;
use std::alloc::AllocError;
use std::test::Fail;

/// Numbers by a fixed recurrence.
#[derive(Drop)]
struct Numbers {
    state: u32,
}

impl Numbers {
    fn below(&mut self, end: u32) -> u32
        requires { 0 < end }
        ensures { result < end }
    {
        self.state = self
            .state
            .wrapping_mul(1_664_525)
            .wrapping_add(1_013_904_223);
        (self.state >> 16) % end
    }
}

const METRICS: [&str; 5] = ["A.Sum", "A.Mean", "A.Each", "A.Held", "A.None"];

const REDUCTIONS: [&str; 2] = ["MEAN", "MAX"];

// Two or three cells, and a measurement of each kind.
fn inventory(text: &mut String, numbers: &mut Numbers) -> Result<(), AllocError> {
    text.push_str("object ManagedElement=1\nobject ManagedElement=1,GNBCUCPFunction=1\n")?;
    text.push_str("object ManagedElement=1,GNBCUCPFunction=1,NRCellCU=0\n")?;
    text.push_str("object ManagedElement=1,GNBCUCPFunction=1,NRCellCU=1\n")?;
    if numbers.below(2) == 0 {
        text.push_str("object ManagedElement=1,GNBCUCPFunction=1,NRCellCU=2\n")?;
    }
    text.push_str("measure A.Sum NRCellCU CC SUM\nmeasure A.Mean NRCellCU GAUGE MEAN\n")?;
    let every = numbers.below(3) + 1;
    writeln!(text, "measure A.Each NRCellCU DER MAX {every}")?;
    let reduce = REDUCTIONS[numbers.below(2) as usize];
    writeln!(text, "measure A.Held NRCellCU SI {reduce}")?;
    text.push_str("end\n")
}

// Now and then greater than is permitted.
fn value(numbers: &mut Numbers) -> u32 {
    match numbers.below(80) {
        0 => 1_048_575 + numbers.below(3),
        small => small,
    }
}

// Now and then of three words.
fn event(text: &mut String, numbers: &mut Numbers, moment: u32) -> Result<(), AllocError> {
    let cell = numbers.below(40) / 19;
    let metric = METRICS[(numbers.below(129) / 32) as usize];
    write!(
        text,
        "{moment} ManagedElement=1,GNBCUCPFunction=1,NRCellCU={cell} {metric}"
    )?;
    if numbers.below(120) > 0 {
        let value = value(numbers);
        write!(text, " {value}")?;
    }
    text.push_str("\n")
}

fn events(text: &mut String, numbers: &mut Numbers) -> Result<(), AllocError> {
    let mut moment = 30u32;
    for _ in 0..16u8 {
        event(text, numbers, moment)?;
        moment = moment.saturating_add(numbers.below(25));
    }
    Ok(())
}

/// How many inputs ended in which way.
#[derive(Drop)]
struct Ends {
    done: u32,
    malformed: u32,
    unknown: u32,
    great: u32,
}

impl Ends {
    fn count(&mut self, end: TallyEnd) {
        let count = match end {
            TallyEnd::Done => &mut self.done,
            TallyEnd::Refused { code: Code::E1, .. } => &mut self.malformed,
            TallyEnd::Refused { code: Code::E2, .. } => &mut self.unknown,
            TallyEnd::Refused { code: Code::E3, .. } => &mut self.great,
            _ => return,
        };
        *count = count.saturating_add(1);
    }
}

#[test]
fn the_program_tallies_as_the_plain_tally_does(rt: HostRuntime) -> Result<(), Fail> {
    let mut numbers = Numbers { state: 1 };
    let mut ends = Ends {
        done: 0,
        malformed: 0,
        unknown: 0,
        great: 0,
    };
    for at in 0..300usize {
        let mut text = String::new(rt.alloc());
        inventory(&mut text, &mut numbers)?;
        events(&mut text, &mut numbers)?;
        let plain = compare(&rt, rt.alloc(), text.as_bytes(), at)?;
        ends.count(plain.end);
    }
    assert!(rt; ends.done > 50, "{} had no refusal", ends.done);
    assert!(rt; ends.malformed > 9, "{} had E1", ends.malformed);
    assert!(rt; ends.unknown > 9, "{} had E2", ends.unknown);
    assert!(rt; ends.great > 9, "{} had E3", ends.great);
    Ok(())
}
