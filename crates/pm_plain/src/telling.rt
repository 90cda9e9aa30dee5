//! The notices of bookings, as lines of the form in which pm_slow prints those of a history.
use crate::stop::Stop;
use pm_base::TICK_SECONDS;
use pm_close::{Booking, Closer, DueReport, EndCrossings, MonitorCrossing};
use pm_file::{Group, Part, Report, Row};
use pm_inventory::Inventory;
use pm_jobs::{Jobs, Side};
use pm_ready::{ReadyFile, report_file};
use pm_thresh::Direction;
use std::alloc::{AllocError, Global};

/// The lines of the notices so far, and how many notices there are.
#[derive(Drop)]
pub(crate) struct Told {
    lines: Vec<u8>,
    count: u64,
}

fn flag(suspect: bool) -> &'static str {
    if suspect { "suspect" } else { "ok" }
}

fn print_row(
    alloc: Global,
    inventory: &Inventory,
    out: &mut Vec<u8>,
    group: &Group,
    row: &Row,
) -> Result<(), Stop> {
    let Some(object) = inventory.tree().find(row.object.as_bytes()) else {
        return Err(Stop::Broken);
    };
    let flag = flag(row.suspect);
    for (name, result) in group.types.iter().zip(row.results.iter()) {
        let Some(metric) = inventory.catalogue().find(name.as_bytes()) else {
            return Err(Stop::Broken);
        };
        let line = match result {
            Some(value) => format!(in alloc; "value {metric} {object} {value} {flag}\n")?,
            None => format!(in alloc; "value {metric} {object} null {flag}\n")?,
        };
        out.extend_from_slice(line.as_bytes())?;
    }
    Ok(())
}

fn print_part(
    alloc: Global,
    inventory: &Inventory,
    out: &mut Vec<u8>,
    part: &Part,
) -> Result<(), Stop> {
    let begin = part.begin;
    let end = part.end;
    let line = format!(in alloc; "part {begin} {end}\n")?;
    out.extend_from_slice(line.as_bytes())?;
    for group in part.groups.iter() {
        for row in group.rows.iter() {
            print_row(alloc, inventory, out, group, row)?;
        }
    }
    Ok(())
}

// What a file says, by its text.
fn print_file(
    alloc: Global,
    inventory: &Inventory,
    out: &mut Vec<u8>,
    file: &ReadyFile,
) -> Result<(), Stop> {
    let Ok(report) = Report::read(alloc, file.text.as_bytes()) else {
        return Err(Stop::Broken);
    };
    let name = report.name(alloc)?;
    if name.as_bytes() != file.info.name.as_bytes() || file.info.ready != report.end {
        return Err(Stop::Broken);
    }
    let begin = report.begin;
    let end = report.end;
    let line = format!(in alloc; "file {begin} {end} ")?;
    out.extend_from_slice(line.as_bytes())?;
    out.extend_from_slice(report.job.as_bytes())?;
    out.extend_from_slice(b"\n")?;
    for part in report.parts.iter() {
        print_part(alloc, inventory, out, part)?;
    }
    Ok(())
}

fn print_crossing(
    alloc: Global,
    out: &mut Vec<u8>,
    end: u64,
    monitor: &[u8],
    crossing: &MonitorCrossing,
) -> Result<(), AllocError> {
    let end = end.saturating_mul(TICK_SECONDS);
    let first = format!(in alloc; "crossing {end} ")?;
    out.extend_from_slice(first.as_bytes())?;
    out.extend_from_slice(monitor)?;
    let of = &crossing.crossing;
    let direction = match of.direction {
        Direction::Up => "UP",
        Direction::Down => "DOWN",
    };
    let threshold = of.threshold;
    let metric = of.metric;
    let object = of.object;
    let value = of.value;
    let rest = format!(in alloc; " {threshold} {metric} {object} {direction} {value}\n")?;
    out.extend_from_slice(rest.as_bytes())
}

// The file of a report that is due.
fn file_of(
    alloc: Global,
    inventory: &Inventory,
    closer: &Closer,
    jobs: &Jobs,
    report: &DueReport,
) -> Result<ReadyFile, Stop> {
    if report.job as usize >= closer.count(Side::Job) || report.job >= jobs.count(Side::Job) {
        return Err(Stop::Broken);
    }
    let earlier = closer.earlier(report);
    let job = jobs.at(Side::Job, report.job);
    let due = &report.due;
    match report_file(alloc, inventory, job, due.begin, earlier, &due.parts)? {
        Some(file) if file.info.ready == report.end.saturating_mul(TICK_SECONDS) => Ok(file),
        _ => Err(Stop::Broken),
    }
}

impl Told {
    pub(crate) fn new(alloc: Global) -> Told {
        Told {
            lines: Vec::new(alloc),
            count: 0,
        }
    }

    // The crossings of one end, which is a tick.
    fn crossings(
        &mut self,
        alloc: Global,
        jobs: &Jobs,
        end: u64,
        crossings: &EndCrossings,
    ) -> Result<(), Stop> {
        for crossing in crossings.crossings.iter() {
            if crossing.monitor >= jobs.count(Side::Monitor) {
                return Err(Stop::Broken);
            }
            let monitor = jobs.at(Side::Monitor, crossing.monitor);
            print_crossing(alloc, &mut self.lines, end, monitor.id.as_bytes(), crossing)?;
            self.count = self.count.saturating_add(1);
        }
        Ok(())
    }

    fn file(
        &mut self,
        alloc: Global,
        inventory: &Inventory,
        file: ReadyFile,
        new: &mut Vec<ReadyFile>,
    ) -> Result<(), Stop> {
        print_file(alloc, inventory, &mut self.lines, &file)?;
        self.count = self.count.saturating_add(1);
        match new.push(file) {
            Ok(()) => Ok(()),
            Err(_) => Err(Stop::Memory),
        }
    }

    // The reports from the front that end by this tick. Answers those behind them.
    fn reports<'a>(
        &mut self,
        alloc: Global,
        inventory: &Inventory,
        closer: &Closer,
        jobs: &Jobs,
        end: u64,
        reports: &'a [DueReport],
        new: &mut Vec<ReadyFile>,
    ) -> Result<&'a [DueReport], Stop> {
        match reports {
            [] => Ok(reports),
            [first, rest @ ..] => {
                if first.end > end {
                    return Ok(reports);
                }
                let file = file_of(alloc, inventory, closer, jobs, first)?;
                self.file(alloc, inventory, file, new)?;
                self.reports(alloc, inventory, closer, jobs, end, rest, new)
            }
        }
    }

    /// What a booking comes to, by end: first files, then crossings. `first` is the tick that was open. Answers the files.
    pub(crate) fn ended(
        &mut self,
        alloc: Global,
        inventory: &Inventory,
        closer: &Closer,
        jobs: &Jobs,
        first: u64,
        booking: &Booking,
    ) -> Result<Vec<ReadyFile>, Stop> {
        let mut new = Vec::new(alloc);
        let mut left = booking.reports();
        let mut end = first;
        for crossings in booking.crossings() {
            end = end.saturating_add(1);
            left = self.reports(alloc, inventory, closer, jobs, end, left, &mut new)?;
            self.crossings(alloc, jobs, end, crossings)?;
        }
        self.reports(alloc, inventory, closer, jobs, u64::MAX, left, &mut new)?;
        Ok(new)
    }

    /// The lines, and last how many notices there are.
    pub(crate) fn lines(&self, alloc: Global) -> Result<Vec<u8>, Stop> {
        let count = self.count;
        let mut lines = Vec::from_slice(alloc, &self.lines)?;
        let last = format!(in alloc; "notices {count}\n")?;
        lines.extend_from_slice(last.as_bytes())?;
        Ok(lines)
    }
}
