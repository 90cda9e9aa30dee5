//! Worked histories, with the lines of their items.
use super::*;
use pm_base::{Blob, Text};
use pm_history::Entry;
use std::alloc::{AllocError, Global};
use std::test::Fail;

// 2023-11-14 22:00:00 UTC.
const START: u64 = 1_699_999_200;

fn event(moment: u64, value: u32, registered: bool) -> Entry {
    Entry::Event {
        moment,
        object: 5,
        metric: 8,
        value,
        registered,
    }
}

// The line of a Booked: its moment, the tick that it takes, and the number and the sum of the values of metric 8 on object 5.
fn push_booked(
    alloc: Global,
    lines: &mut String,
    moment: u64,
    tick: u64,
    before: &[Entry],
) -> Result<(), AllocError> {
    if before.len() > 1_000 {
        return Err(AllocError);
    }
    let cell = open_cell(alloc, before, 5, 8)?;
    let (n, sum) = (cell.n, cell.sum);
    let line = format!(in alloc; "booked {moment} {tick} {n} {sum}\n")?;
    lines.push_str(line.as_str())
}

fn push_line(alloc: Global, lines: &mut String, item: &Item) -> Result<(), AllocError> {
    match item {
        Item::Opened { moment } => {
            let line = format!(in alloc; "boot {moment}\n")?;
            lines.push_str(line.as_str())
        }
        Item::Booked {
            moment,
            tick,
            before,
        } => push_booked(alloc, lines, *moment, *tick, before),
        Item::Changed { entry } => {
            let moment = entry.moment();
            let line = format!(in alloc; "changed {moment}\n")?;
            lines.push_str(line.as_str())
        }
    }
}

fn lines_of(alloc: Global, history: &[Entry]) -> Result<String, AllocError> {
    let mut lines = String::new(alloc);
    let items = items(alloc, history)?;
    for item in &items {
        push_line(alloc, &mut lines, item)?;
    }
    Ok(lines)
}

#[test]
fn a_boot_leaves_out_the_events_of_the_tick_that_it_cuts(rt: HostRuntime) -> Result<(), Fail> {
    let mut history = Vec::new(rt.alloc());
    history.push(Entry::Boot { moment: START - 60 })?;
    history.push(Entry::Now { moment: START })?;
    history.push(event(START, 7, true))?;
    history.push(Entry::Boot { moment: START + 30 })?;
    history.push(event(START + 30, 9, false))?;
    history.push(event(START + 30, 11, true))?;
    history.push(Entry::Now { moment: START + 40 })?;
    history.push(event(START + 40, 13, true))?;
    history.push(Entry::Now { moment: START + 61 })?;
    history.push(event(START + 61, 5, true))?;
    let want =
        "boot 1699999140\nbooked 1699999200 28333319 0 0\nboot 1699999230\nbooked 1699999261 28333320 2 24\n";
    assert_eq!(rt; lines_of(rt.alloc(), history.as_slice())?.as_str(), want);
    assert_eq!(rt; kept(history.as_slice()).len(), 9);
    Ok(())
}

#[test]
fn a_now_after_a_gap_takes_the_tick_before_it(rt: HostRuntime) -> Result<(), Fail> {
    let mut history = Vec::new(rt.alloc());
    history.push(Entry::Boot { moment: START })?;
    history.push(event(START, 2, true))?;
    history.push(Entry::Now {
        moment: START + 86_400,
    })?;
    history.push(Entry::Now {
        moment: START + 86_410,
    })?;
    assert_eq!(rt; kept(history.as_slice()).len(), 3);
    history.push(Entry::Boot {
        moment: START + 200_000,
    })?;
    history.push(Entry::Boot {
        moment: START + 200_000,
    })?;
    let want =
        "boot 1699999200\nbooked 1700085600 28333320 1 2\nboot 1700199200\nboot 1700199200\n";
    assert_eq!(rt; lines_of(rt.alloc(), history.as_slice())?.as_str(), want);
    Ok(())
}

#[test]
fn each_change_of_a_job_that_is_made_again_is_kept(rt: HostRuntime) -> Result<(), Fail> {
    let alloc = rt.alloc();
    let mut history = Vec::new(alloc);
    history.push(Entry::Boot { moment: START })?;
    history.push(Entry::JobMade {
        moment: START,
        id: Text::from_slice(alloc, b"job1")?,
        body: Blob::new(alloc),
    })?;
    history.push(Entry::Now { moment: START + 10 })?;
    history.push(Entry::JobDeleted {
        moment: START + 10,
        id: Text::from_slice(alloc, b"job1")?,
    })?;
    history.push(Entry::JobMade {
        moment: START + 10,
        id: Text::from_slice(alloc, b"job1")?,
        body: Blob::new(alloc),
    })?;
    let want = "boot 1699999200\nchanged 1699999200\nchanged 1699999210\nchanged 1699999210\n";
    assert_eq!(rt; lines_of(alloc, history.as_slice())?.as_str(), want);
    assert_eq!(rt; kept(history.as_slice()).len(), 5);
    Ok(())
}
