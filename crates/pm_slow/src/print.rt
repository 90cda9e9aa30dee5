//! Notices as lines of text.
//!
//!     file BEGIN END ID
//!     part BEGIN END                                  for each part of the file
//!     value METRIC OBJECT V|null ok|suspect           for each row and result of the part, in the order of the report
//!     crossing END ID THRESHOLD METRIC OBJECT UP|DOWN V
//!     notices N                                       last, with their number
//!
//! BEGIN and END are moments. Objects and metrics are numbers of the inventory, thresholds numbers in their monitor's list.
use crate::notice::Notice;
use crate::report::{Group, Part, Report, Row};
use crate::watching::Crossed;
use pm_base::TICK_SECONDS;
use std::alloc::{AllocError, Global};

// The first moment of a tick that a moment lies in.
fn moment(tick: u64) -> u64 {
    tick.saturating_mul(TICK_SECONDS)
}

fn flag(suspect: bool) -> &'static str {
    if suspect { "suspect" } else { "ok" }
}

fn print_row(
    alloc: Global,
    out: &mut Vec<u8>,
    metrics: &[u8],
    row: &Row,
) -> Result<(), AllocError> {
    let flag = flag(row.suspect);
    let object = row.object;
    for (metric, result) in metrics.iter().zip(row.results.iter()) {
        let line = match result {
            Some(value) => format!(in alloc; "value {metric} {object} {value} {flag}\n")?,
            None => format!(in alloc; "value {metric} {object} null {flag}\n")?,
        };
        out.extend_from_slice(line.as_bytes())?;
    }
    Ok(())
}

fn print_group(alloc: Global, out: &mut Vec<u8>, group: &Group) -> Result<(), AllocError> {
    for row in group.rows.iter() {
        print_row(alloc, out, group.metrics.as_slice(), row)?;
    }
    Ok(())
}

fn print_part(alloc: Global, out: &mut Vec<u8>, part: &Part) -> Result<(), AllocError> {
    let begin = moment(part.begin);
    let end = moment(part.end);
    let line = format!(in alloc; "part {begin} {end}\n")?;
    out.extend_from_slice(line.as_bytes())?;
    for group in part.groups.iter() {
        print_group(alloc, out, group)?;
    }
    Ok(())
}

fn print_report(alloc: Global, out: &mut Vec<u8>, report: &Report) -> Result<(), AllocError> {
    let begin = moment(report.begin);
    let end = moment(report.end);
    let line = format!(in alloc; "file {begin} {end} ")?;
    out.extend_from_slice(line.as_bytes())?;
    out.extend_from_slice(report.job.as_bytes())?;
    out.extend_from_slice(b"\n")?;
    for part in report.parts.iter() {
        print_part(alloc, out, part)?;
    }
    Ok(())
}

fn print_crossing(alloc: Global, out: &mut Vec<u8>, crossing: &Crossed) -> Result<(), AllocError> {
    let end = moment(crossing.end);
    let direction = if crossing.up { "UP" } else { "DOWN" };
    let threshold = crossing.threshold;
    let metric = crossing.metric;
    let object = crossing.object;
    let value = crossing.value;
    let first = format!(in alloc; "crossing {end} ")?;
    out.extend_from_slice(first.as_bytes())?;
    out.extend_from_slice(crossing.monitor.as_bytes())?;
    let rest = format!(in alloc; " {threshold} {metric} {object} {direction} {value}\n")?;
    out.extend_from_slice(rest.as_bytes())
}

/// The lines of the notices, in their order.
pub fn print_notices(alloc: Global, notices: &[Notice]) -> Result<Vec<u8>, AllocError> {
    let mut out = Vec::new(alloc);
    for notice in notices {
        match notice {
            Notice::File(report) => print_report(alloc, &mut out, report)?,
            Notice::Cross(crossing) => print_crossing(alloc, &mut out, crossing)?,
        }
    }
    let count = notices.len();
    let last = format!(in alloc; "notices {count}\n")?;
    out.extend_from_slice(last.as_bytes())?;
    Ok(out)
}
