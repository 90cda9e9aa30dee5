//! Worked histories of the default inventory, with the lines of what follows from each.
//!
//! Object 2 is NRCellCU=7 and object 3 is NRCellCU=8. Metric 0 is RRC.ConnEstabAtt.mo-Data, and metric 5 is RRC.ConnMax.
ghost use Rattle.std.specs.Prelude.{◌≡◌};

use super::*;
use pm_base::{Blob, Class, Text};
use pm_history::{Entry, Metric, Side};
use pm_meas::Reduce;
use std::alloc::{AllocError, Global};
use std::test::Fail;

// 2023-11-14 22:00:00 UTC.
const START: u64 = 1_699_999_200;

const ATT: Metric = Metric {
    number: 0,
    reduce: Reduce::Sum,
};

const MAX: Metric = Metric {
    number: 5,
    reduce: Reduce::Max,
};

fn no_terms(alloc: Global) -> Terms {
    Terms {
        granularity: 1,
        parts: 1,
        unlocked: true,
        measured: Vec::new(alloc),
        watched: Vec::new(alloc),
    }
}

// A job of 15 minutes, so many to a file, that measures these on an object.
fn job(alloc: Global, parts: u32, metrics: &[Metric], object: u16) -> Result<Terms, AllocError> {
    let mut terms = no_terms(alloc);
    terms.granularity = 15;
    terms.parts = parts;
    terms.measured.push(Measured {
        class: Class::NrCellCu,
        metrics: Vec::from_slice(alloc, metrics)?,
        objects: Vec::from_slice(alloc, &[object])?,
    })?;
    Ok(terms)
}

// A monitor of one minute, of the threshold 80 with a hysteresis of 5 on object 2, up and down.
fn monitor(alloc: Global) -> Result<Terms, AllocError> {
    let mut terms = no_terms(alloc);
    terms.watched.push(Watched {
        threshold: 0,
        metric: MAX,
        objects: Vec::from_slice(alloc, &[2])?,
        value: 80,
        hysteresis: 5,
        high: 85,
        low: 75,
        up: true,
        down: true,
    })?;
    Ok(terms)
}

// A history in the making, and what its bodies ask for.
#[derive(Drop)]
struct Story {
    alloc: Global,
    book: Book,
    entries: Vec<Entry>,
}

fn new_story(alloc: Global) -> Story {
    Story {
        alloc,
        book: Book {
            meanings: Vec::new(alloc),
            otherwise: no_terms(alloc),
        },
        entries: Vec::new(alloc),
    }
}

impl Story {
    fn boot(&mut self, moment: u64) -> Result<(), AllocError> {
        self.entries.push(Entry::Boot { moment })?;
        Ok(())
    }

    fn now(&mut self, moment: u64) -> Result<(), AllocError> {
        self.entries.push(Entry::Now { moment })?;
        Ok(())
    }

    fn event(&mut self, moment: u64, metric: u8, value: u32) -> Result<(), AllocError> {
        self.now(moment)?;
        self.entries.push(Entry::Event {
            moment,
            object: 2,
            metric,
            value,
            registered: true,
        })?;
        Ok(())
    }

    fn text(&self, bytes: &[u8; 4]) -> Result<Text, AllocError> {
        Text::from_slice(self.alloc, bytes)
    }

    // A job or a monitor, whose body is its id.
    fn made(
        &mut self,
        side: Side,
        moment: u64,
        id: &[u8; 4],
        terms: Terms,
    ) -> Result<(), AllocError> {
        let body = Blob::from_slice(self.alloc, id)?;
        self.book.meanings.push(Meaning { side, body, terms })?;
        self.now(moment)?;
        let id = self.text(id)?;
        let body = Blob::from_slice(self.alloc, id.as_bytes())?;
        self.entries.push(match side {
            Side::Job => Entry::JobMade { moment, id, body },
            Side::Monitor => Entry::MonitorMade { moment, id, body },
        })?;
        Ok(())
    }

    fn state(&mut self, moment: u64, unlocked: bool) -> Result<(), AllocError> {
        self.now(moment)?;
        let id = self.text(b"job1")?;
        self.entries.push(Entry::JobState {
            moment,
            id,
            unlocked,
        })?;
        Ok(())
    }

    fn deleted(&mut self, moment: u64) -> Result<(), AllocError> {
        self.now(moment)?;
        let id = self.text(b"job1")?;
        self.entries.push(Entry::JobDeleted { moment, id })?;
        Ok(())
    }

    // The lines of its notices.
    fn told(&self) -> Result<Vec<u8>, AllocError> {
        if self.entries.len() > 1_000 {
            return Err(AllocError);
        }
        let notices = notices(self.alloc, &self.book, self.entries.as_slice())?;
        print_notices(self.alloc, notices.as_slice())
    }
}

// A Boot, and a job of 15 minutes that measures ATT on object 2, made at a moment.
fn job1(alloc: Global, moment: u64, parts: u32) -> Result<Story, AllocError> {
    let mut story = new_story(alloc);
    story.boot(START - 100)?;
    let terms = job(alloc, parts, &[ATT], 2)?;
    story.made(Side::Job, moment, b"job1", terms)?;
    Ok(story)
}

// The same with 2 at 22:00 and 3 at 22:10.
fn with_events(alloc: Global, moment: u64, parts: u32) -> Result<Story, AllocError> {
    let mut story = job1(alloc, moment, parts)?;
    story.event(START, 0, 2)?;
    story.event(START + 600, 0, 3)?;
    Ok(story)
}

const ONE_FILE: &[u8] = b"file 1699999200 1700000100 job1
part 1699999200 1700000100
value 0 2 5 ok
notices 1
";

#[test]
fn a_file_has_the_sum_of_its_counted_minutes(rt: HostRuntime) -> Result<(), Fail> {
    let mut story = with_events(rt.alloc(), START - 10, 1)?;
    story.now(START + 900)?;
    assert_eq!(rt; story.told()?.as_slice(), ONE_FILE);
    Ok(())
}

#[test]
fn a_job_made_within_the_first_minute_makes_it_suspect(rt: HostRuntime) -> Result<(), Fail> {
    let mut story = with_events(rt.alloc(), START, 1)?;
    story.now(START + 900)?;
    let want: &[u8] = b"file 1699999200 1700000100 job1
part 1699999200 1700000100
value 0 2 3 suspect
notices 1
";
    assert_eq!(rt; story.told()?.as_slice(), want);
    Ok(())
}

#[test]
fn a_minute_of_two_changes_of_state_is_not_counted(rt: HostRuntime) -> Result<(), Fail> {
    let mut story = job1(rt.alloc(), START - 10, 1)?;
    story.event(START, 0, 2)?;
    story.state(START + 310, false)?;
    story.state(START + 310, true)?;
    story.event(START + 320, 0, 7)?;
    story.event(START + 600, 0, 3)?;
    story.now(START + 900)?;
    let want: &[u8] = b"file 1699999200 1700000100 job1
part 1699999200 1700000100
value 0 2 5 suspect
notices 1
";
    assert_eq!(rt; story.told()?.as_slice(), want);
    Ok(())
}

#[test]
fn the_state_that_stands_already_is_no_entry_and_counts(rt: HostRuntime) -> Result<(), Fail> {
    let mut story = job1(rt.alloc(), START - 10, 1)?;
    story.event(START, 0, 2)?;
    story.now(START + 310)?;
    story.event(START + 320, 0, 7)?;
    story.event(START + 600, 0, 3)?;
    story.now(START + 900)?;
    let want: &[u8] = b"file 1699999200 1700000100 job1
part 1699999200 1700000100
value 0 2 12 ok
notices 1
";
    assert_eq!(rt; story.told()?.as_slice(), want);
    Ok(())
}

#[test]
fn a_job_deleted_before_the_end_has_no_file(rt: HostRuntime) -> Result<(), Fail> {
    let mut story = with_events(rt.alloc(), START - 10, 1)?;
    story.deleted(START + 899)?;
    story.now(START + 900)?;
    let want: &[u8] = b"notices 0\n";
    assert_eq!(rt; story.told()?.as_slice(), want);
    Ok(())
}

#[test]
fn a_job_deleted_at_the_end_has_its_file(rt: HostRuntime) -> Result<(), Fail> {
    let mut story = with_events(rt.alloc(), START - 10, 1)?;
    story.deleted(START + 900)?;
    assert_eq!(rt; story.told()?.as_slice(), ONE_FILE);
    Ok(())
}

#[test]
fn an_hour_has_four_parts(rt: HostRuntime) -> Result<(), Fail> {
    let mut story = with_events(rt.alloc(), START - 10, 4)?;
    story.now(START + 3_600)?;
    let want: &[u8] = b"file 1699999200 1700002800 job1
part 1699999200 1700000100
value 0 2 5 ok
part 1700000100 1700001000
value 0 2 0 ok
part 1700001000 1700001900
value 0 2 0 ok
part 1700001900 1700002800
value 0 2 0 ok
notices 1
";
    assert_eq!(rt; story.told()?.as_slice(), want);
    Ok(())
}

#[test]
fn of_no_event_a_sum_is_0_and_a_maximum_null(rt: HostRuntime) -> Result<(), Fail> {
    let mut story = new_story(rt.alloc());
    story.boot(START - 100)?;
    let terms = job(rt.alloc(), 1, &[ATT, MAX], 3)?;
    story.made(Side::Job, START - 10, b"job1", terms)?;
    story.now(START + 900)?;
    let want: &[u8] = b"file 1699999200 1700000100 job1
part 1699999200 1700000100
value 0 3 0 ok
value 5 3 null ok
notices 1
";
    assert_eq!(rt; story.told()?.as_slice(), want);
    Ok(())
}

#[test]
fn a_threshold_is_crossed_up_again_only_behind_a_low_value(rt: HostRuntime) -> Result<(), Fail> {
    let mut story = new_story(rt.alloc());
    story.boot(START - 100)?;
    let terms = monitor(rt.alloc())?;
    story.made(Side::Monitor, START - 10, b"mon1", terms)?;
    let mut moment = START;
    for value in [70, 86, 84, 88, 75, 85] {
        story.event(moment, 5, value)?;
        moment = moment.saturating_add(60);
    }
    story.now(moment)?;
    let want: &[u8] = b"crossing 1699999320 mon1 0 5 2 UP 86
crossing 1699999500 mon1 0 5 2 DOWN 75
crossing 1699999560 mon1 0 5 2 UP 85
notices 3
";
    assert_eq!(rt; story.told()?.as_slice(), want);
    Ok(())
}

// One event in each of so many minutes, at its fifth second.
fn each_minute(story: &mut Story, first: u64, minutes: u8) -> Result<(), AllocError> {
    let mut moment = first;
    for _k in 0..minutes {
        story.event(moment, 0, 1)?;
        moment = moment.saturating_add(60);
    }
    Ok(())
}

#[test]
fn a_restart_takes_the_minutes_that_it_cuts(rt: HostRuntime) -> Result<(), Fail> {
    let mut story = job1(rt.alloc(), START - 10, 1)?;
    each_minute(&mut story, START + 5, 8)?;
    story.boot(START + 490)?;
    each_minute(&mut story, START + 545, 6)?;
    story.now(START + 900)?;
    let want: &[u8] = b"file 1699999200 1700000100 job1
part 1699999200 1700000100
value 0 2 13 suspect
notices 1
";
    assert_eq!(rt; story.told()?.as_slice(), want);
    Ok(())
}

#[test]
fn a_restart_behind_the_end_brings_the_file_once(rt: HostRuntime) -> Result<(), Fail> {
    let mut story = job1(rt.alloc(), START - 10, 1)?;
    each_minute(&mut story, START + 5, 8)?;
    story.boot(START + 1_200)?;
    story.boot(START + 1_300)?;
    let want: &[u8] = b"file 1699999200 1700000100 job1
part 1699999200 1700000100
value 0 2 7 suspect
notices 1
";
    assert_eq!(rt; story.told()?.as_slice(), want);
    Ok(())
}

#[test]
fn a_day_without_a_request_has_no_file(rt: HostRuntime) -> Result<(), Fail> {
    let mut story = job1(rt.alloc(), START - 10, 1)?;
    story.event(START, 0, 2)?;
    story.boot(START + 172_800)?;
    let want: &[u8] = b"notices 0\n";
    assert_eq!(rt; story.told()?.as_slice(), want);
    Ok(())
}

#[test]
fn files_stand_by_their_ends_and_at_one_end_by_id(rt: HostRuntime) -> Result<(), Fail> {
    let mut story = new_story(rt.alloc());
    story.boot(START - 100)?;
    let short = job(rt.alloc(), 1, &[], 2)?;
    story.made(Side::Job, START - 10, b"zebu", short)?;
    let long = job(rt.alloc(), 2, &[], 2)?;
    story.made(Side::Job, START - 10, b"bear", long)?;
    story.now(START + 1_800)?;
    let want: &[u8] = b"file 1699999200 1700000100 zebu
part 1699999200 1700000100
file 1699999200 1700001000 bear
part 1699999200 1700000100
part 1700000100 1700001000
file 1700000100 1700001000 zebu
part 1700000100 1700001000
notices 3
";
    assert_eq!(rt; story.told()?.as_slice(), want);
    Ok(())
}
