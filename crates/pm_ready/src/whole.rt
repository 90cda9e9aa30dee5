//! Whether a report has all its parts.
ghost use Rattle.std.specs.Prelude.{◌≡◌, ◌↔◌, ◌++◌, ◌+◌, ◌<◌, ◌≤◌, ◌%◌, true, map, length, IsTrue};
ghost use Rattle.std.specs.List.{AllByRecursion};
ghost use Rattle.pm_form.specs.Lists.{each_fits};
ghost use Rattle.pm_file.specs.ReportForm.{result_form};
ghost use Rattle.pm_close.specs.Parts.{quantities_of};
ghost use Rattle.pm_ready.specs.Measured.{measured_of};
ghost use Rattle.pm_ready.specs.Shape.{terms_of};
ghost use Rattle.pm_ready.specs.Whole.{HasValues, HaveValues, IsWhole, AreInRange};

use crate::measured::{Measured, values_of};
use crate::shape::Shape;
use pm_base::{LAST_MOMENT, TICK_SECONDS};
use pm_close::PartValues;

// Whether there are as many values as a part has.
fn are_enough(measured: &[Measured], values: usize) -> bool
    ensures { IsTrue result ↔ (length (quantities_of (map measured_of measured.now)) ≤ values) }
{
    let mut left = values;
    for class in measured {
        let Some(count) = values_of(class, left) else {
            return false;
        };
        left -= count;
    }
    true
}

fn have_values(shape: &Shape, parts: &[PartValues]) -> bool
    ensures { IsTrue result ↔ HaveValues (terms_of shape.now) parts.now }
{
    for part in parts {
        if !are_enough(&shape.measured, part.values.len()) {
            return false;
        }
    }
    true
}

fn are_many(count: u64, earlier: &[PartValues], parts: &[PartValues]) -> bool
    ensures { IsTrue result ↔ (length (earlier.now ++ parts.now) ≡ count) }
{
    let earlier = earlier.len() as u64;
    earlier <= count && parts.len() as u64 == count - earlier
}

fn is_span(begin: u64, reporting: u64) -> bool
    requires some { 0 < reporting }
    requires day { reporting ≤ 1440 }
    ensures { IsTrue result ↔ ((begin % reporting ≡ 0) × (begin + reporting ≤ 4223371679)) }
{
    begin <= LAST_MOMENT / TICK_SECONDS - reporting && begin % reporting == 0
}

/// Whether these are all parts of a report, whose end is a moment.
pub(crate) fn is_whole(
    shape: &Shape,
    begin: u64,
    earlier: &[PartValues],
    parts: &[PartValues],
) -> bool
    ensures { IsTrue result ↔ IsWhole (terms_of shape.now) begin (earlier.now ++ parts.now) }
{
    if !is_span(begin, shape.reporting) {
        return false;
    }
    if !are_many(shape.parts, earlier, parts) {
        return false;
    }
    if !have_values(shape, earlier) {
        return false;
    }
    have_values(shape, parts)
}

// What stands in memory is below 2 ^ 64.
fn read_part(values: &[Option<u64>])
    ensures { each_fits result_form.fits values.now ≡ true }
{
    for value in values {
        let _number = value.unwrap_or(0);
    }
}

/// A report can say each value. Nothing is done.
pub(crate) fn read_values(parts: &[PartValues])
    ensures { AreInRange parts.now }
{
    for part in parts {
        read_part(&part.values);
    }
}
