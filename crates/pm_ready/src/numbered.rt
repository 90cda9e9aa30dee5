//! The report that is due, in the numbers of the inventory.
ghost use Rattle.std.specs.Prelude.{◌≡◌, ◌<◌, ◌≤◌, ◌+◌, ◌^◌, ◌++◌, map, length, IfOk, OnOk};
ghost use Rattle.std.specs.List.{AllByRecursion};
ghost use Rattle.pm_history.specs.Files.{Row};
ghost use Rattle.pm_history.specs.Terms.{Terms};
ghost use Rattle.pm_file.specs.Numbered.{row_of, group_of, part_of, report_of};
ghost use Rattle.pm_close.specs.Files.{rows_with, group_with, groups_with, part_with, parts_with, report_with};
ghost use Rattle.pm_close.specs.Parts.{quantities_in, quantities_of};
ghost use Rattle.pm_ready.specs.Measured.{measured_of};
ghost use Rattle.pm_ready.specs.Whole.{tick_after, HasValues, HaveValues};
ghost use Rattle.pm_ready.specs.Shape.{terms_of};

use crate::measured::{Measured, values_of};
use crate::shape::Shape;
use pm_base::Text;
use pm_close::PartValues;
use pm_file::{NumberedGroup, NumberedPart, NumberedReport, NumberedRow};
use pm_history::Metric;
use std::alloc::{AllocError, Global};

fn numbers_of(alloc: Global, metrics: &[Metric]) -> Result<Vec<u8>, AllocError>
    ensures { IfOk result (λ v. v.items ≡ map (λ (m : Metric). m.number) metrics.now) }
{
    let mut numbers = Vec::with_capacity(alloc, metrics.len())?;
    for metric in metrics {
        numbers.push(metric.number)?;
    }
    Ok(numbers)
}

fn row(
    alloc: Global,
    object: u16,
    values: &[Option<u64>],
    suspect: bool,
) -> Result<NumberedRow, AllocError>
    ensures { IfOk result (λ r. row_of r ≡ (let row : Row = record { object = object; results = values.now; suspect = suspect } in row)) }
{
    Ok(NumberedRow {
        object,
        results: Vec::from_slice(alloc, values)?,
        suspect,
    })
}

fn rows(
    alloc: Global,
    measured: &Measured,
    suspect: bool,
    values: &[Option<u64>],
) -> Result<Vec<NumberedRow>, AllocError>
    requires { length (quantities_in (measured_of measured.now)) ≤ length values.now }
    ensures { IfOk result (λ v. map row_of v.items ≡ rows_with measured.now.metrics.items suspect measured.now.objects.items values.now) }
{
    let mut rows = Vec::with_capacity(alloc, measured.objects.len())?;
    let mut left = values;
    for object in &measured.objects {
        let (own, rest) = left.split_at(measured.metrics.len());
        rows.push(row(alloc, *object, own, suspect)?)?;
        left = rest;
    }
    Ok(rows)
}

fn group(
    alloc: Global,
    measured: &Measured,
    suspect: bool,
    values: &[Option<u64>],
) -> Result<NumberedGroup, AllocError>
    requires { length (quantities_in (measured_of measured.now)) ≤ length values.now }
    ensures { IfOk result (λ g. group_of g ≡ group_with (measured_of measured.now) suspect values.now) }
{
    Ok(NumberedGroup {
        class: measured.class,
        metrics: numbers_of(alloc, &measured.metrics)?,
        rows: rows(alloc, measured, suspect, values)?,
    })
}

fn groups(
    alloc: Global,
    measured: &[Measured],
    suspect: bool,
    values: &[Option<u64>],
) -> Result<Vec<NumberedGroup>, AllocError>
    requires { length (quantities_of (map measured_of measured.now)) ≤ length values.now }
    ensures { IfOk result (λ v. map group_of v.items ≡ groups_with (map measured_of measured.now) suspect values.now) }
{
    let mut groups = Vec::with_capacity(alloc, measured.len())?;
    let mut left = values;
    for class in measured {
        let Some(count) = values_of(class, left.len()) else {
            unreachable!()
        };
        groups.push(group(alloc, class, suspect, left)?)?;
        let (_, rest) = left.split_at(count);
        left = rest;
    }
    Ok(groups)
}

fn part(
    alloc: Global,
    shape: &Shape,
    begin: u64,
    part: &PartValues,
) -> Result<NumberedPart, AllocError>
    requires values { HasValues (terms_of shape.now) part.now }
    requires in_range { begin + shape.now.granularity < 2 ^ 64 }
    ensures { IfOk result (λ p. part_of p ≡ part_with (terms_of shape.now) begin part.now) }
{
    Ok(NumberedPart {
        begin,
        end: begin + shape.granularity,
        groups: groups(alloc, &shape.measured, part.suspect, &part.values)?,
    })
}

// The parts come after those that are there. Answers the tick with which the next one begins.
fn push_parts(
    alloc: Global,
    shape: &Shape,
    begin: u64,
    parts: &[PartValues],
    out: &mut Vec<NumberedPart>,
) -> Result<u64, AllocError>
    requires values { HaveValues (terms_of shape.now) parts.now }
    requires in_range { tick_after (terms_of shape.now) begin parts.now < 2 ^ 64 }
    ensures next { IfOk result (λ tick. tick ≡ tick_after (terms_of shape.now) begin parts.now) }
    ensures parts { OnOk result (map part_of out.new.items ≡ map part_of out.old.items ++ parts_with (terms_of shape.now) begin parts.now) }
{
    let mut tick = begin;
    for values in parts {
        out.push(part(alloc, shape, tick, values)?)?;
        tick += shape.granularity;
    }
    Ok(tick)
}

/// The report of a job whose parts these are.
pub(crate) fn numbered(
    alloc: Global,
    id: &Text,
    shape: &Shape,
    begin: u64,
    earlier: &[PartValues],
    parts: &[PartValues],
) -> Result<NumberedReport, AllocError>
    requires values { HaveValues (terms_of shape.now) (earlier.now ++ parts.now) }
    requires in_range { tick_after (terms_of shape.now) begin (earlier.now ++ parts.now) < 2 ^ 64 }
    requires whole { tick_after (terms_of shape.now) begin (earlier.now ++ parts.now) ≡ begin + shape.now.reporting }
    ensures { IfOk result (λ r. report_of r ≡ report_with id.now (terms_of shape.now) begin (earlier.now ++ parts.now)) }
{
    let mut out = Vec::new(alloc);
    let tick = push_parts(alloc, shape, begin, earlier, &mut out)?;
    let end = push_parts(alloc, shape, tick, parts, &mut out)?;
    Ok(NumberedReport {
        job: Text::from_slice(alloc, id.as_bytes())?,
        begin,
        end,
        parts: out,
    })
}
