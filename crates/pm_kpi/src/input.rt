//! The ratios of the input, one a line.
ghost use Rattle.std.specs.Prelude.{◌≡◌, [], false};
ghost use Rattle.pm_outside.specs.Causes.{faults_after};
ghost use Rattle.pm_kpi.specs.Ratios.{ratios_of};
ghost use Rattle.pm_kpi.specs.Input.{ReadsRatios};
ghost use Rattle.pm_kpi.specs.Faults.{names_input, names_output, names_disk, fails_by};
ghost use Rattle.pm_kpi.specs.LineEnds.{TakesLine};

use crate::{KpiEnd, KpiError, Ratios};
use pm_base::Code;
use pm_outside::{Feed, FeedError, Line, MOST_READ, Source};
use std::alloc::Global;

/// Adds the ratios of the lines up to the end of the input.
pub(crate) fn read_ratios<S: Source>(
    alloc: Global,
    input: &mut S,
    ratios: &mut Ratios,
) -> Result<(), KpiEnd>
    requires { ratios_of ratios.old ≡ [] }
    ensures read { S.IsTold → ReadsRatios (S.left input.old) result (ratios_of ratios.new) }
    ensures no_other { (fails_by names_output result ≡ false) × (fails_by names_disk result ≡ false) }
    ensures counted { S.faults input.new ≡ faults_after (fails_by names_input result) (S.faults input.old) }
{
    let Ok(mut feed) = Feed::new(alloc) else {
        return Err(KpiEnd::Memory);
    };
    for place in 1..u64::MAX {
        match feed.line(input) {
            Ok(Line::Whole { .. }) => {}
            Ok(Line::Long) => return Err(bad(place, Code::K1)),
            Ok(Line::End) => return Ok(()),
            Err(FeedError::Limit) => return Err(bad(MOST_READ, Code::Z1)),
            Err(FeedError::Failed) => return Err(KpiEnd::ReadFault),
        }
        match take_line(ratios, feed.bytes(), place) {
            Ok(()) => {}
            Err(end) => return Err(end),
        }
    }
    Err(KpiEnd::Memory)
}

fn bad(place: u64, code: Code) -> KpiEnd
    ensures { result ≡ KpiEnd.BadInput place code }
{
    KpiEnd::BadInput { place, code }
}

// Adds the ratio of a line, which is the one of this number.
fn take_line(ratios: &mut Ratios, line: &[u8], place: u64) -> Result<(), KpiEnd>
    ensures takes { TakesLine (ratios_of ratios.old) line.now place result (ratios_of ratios.new) }
    ensures no_fault { (fails_by names_input result ≡ false) × (fails_by names_output result ≡ false) × (fails_by names_disk result ≡ false) }
{
    match ratios.add(line) {
        Ok(_) => Ok(()),
        Err(KpiError::K1) => Err(bad(place, Code::K1)),
        Err(KpiError::K2) => Err(bad(place, Code::K2)),
        Err(KpiError::K3) => Err(bad(place, Code::K3)),
        Err(KpiError::Memory) => Err(KpiEnd::Memory),
    }
}
