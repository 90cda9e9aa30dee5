//! What a body asks for, in the same form for jobs and monitors.
ghost use Rattle.std.specs.Prelude.{◌≡◌, ◌++◌, map, string_bytes, IfOk, OnOk, Some};
ghost use Rattle.std.specs.List.{flat_map};
ghost use Rattle.pm_asked.specs.Body as asked;
ghost use Rattle.pm_asked.specs.Body.{IsJobBody, IsMonitorBody};
ghost use Rattle.pm_jobs.specs.Asked.{asked_of, job_asked, monitor_asked};
ghost use Rattle.pm_jobs.specs.Content.{is_unlocked as unlocked_state, texts, job_content, monitor_content, threshold_content};
ghost use Rattle.pm_jobs.specs.Reading.{Reads};
ghost use Rattle.pm_jobs.specs.Wanted.{wanted_content, text_rule};

use crate::{BodyError, JobBody, MonitorBody, State, Threshold, read_job, read_monitor};
use pm_base::Blob;
use pm_history::Side;
use std::alloc::{AllocError, Global};

/// A body of either side.
#[derive(Drop)]
pub(crate) struct Wanted {
    pub(crate) unlocked: bool,
    /// In seconds.
    pub(crate) granularity: u32,
    /// In minutes; 0 of a monitor.
    pub(crate) reporting: u32,
    /// Of a monitor those of all thresholds.
    pub(crate) metrics: Vec<String>,
    pub(crate) objects: Vec<String>,
    pub(crate) roots: Vec<String>,
    /// None of a job.
    pub(crate) thresholds: Vec<Threshold>,
    /// The canonical text.
    pub(crate) text: Blob,
}

pub(crate) fn is_unlocked(state: State) -> bool
    ensures { result ≡ unlocked_state state }
{
    match state {
        State::Locked => false,
        State::Unlocked => true,
    }
}

fn job_wanted(alloc: Global, body: JobBody) -> Result<Wanted, AllocError>
    requires { IsJobBody (job_content body) }
    ensures content { IfOk result (λ w. wanted_content w ≡ job_asked (job_content body)) }
    ensures back { IfOk result (λ w. asked_of Side.Job w.text ≡ Some (wanted_content w)) }
{
    let text = body.to_bytes(alloc)?;
    Ok(Wanted {
        unlocked: is_unlocked(body.state),
        granularity: body.granularity,
        reporting: body.reporting,
        metrics: body.metrics,
        objects: body.objects,
        roots: body.roots,
        thresholds: Vec::new(alloc),
        text,
    })
}

fn append_copies(alloc: Global, all: &mut Vec<String>, names: &[String]) -> Result<(), AllocError>
    ensures { OnOk result (texts all.new ≡ texts all.old ++ map string_bytes names.now) }
{
    for name in names {
        let copy = String::from_str(alloc, name.as_str())?;
        all.push(copy)?;
    }
    Ok(())
}

// The metrics of all thresholds.
fn all_metrics(alloc: Global, thresholds: &[Threshold]) -> Result<Vec<String>, AllocError>
    ensures { IfOk result (λ v. texts v ≡ flat_map (λ (t : asked.Threshold). t.metrics) (map threshold_content thresholds.now)) }
{
    let mut all = Vec::new(alloc);
    for threshold in thresholds {
        append_copies(alloc, &mut all, &threshold.metrics)?;
    }
    Ok(all)
}

fn monitor_wanted(alloc: Global, body: MonitorBody) -> Result<Wanted, AllocError>
    requires { IsMonitorBody (monitor_content body) }
    ensures content { IfOk result (λ w. wanted_content w ≡ monitor_asked (monitor_content body)) }
    ensures back { IfOk result (λ w. asked_of Side.Monitor w.text ≡ Some (wanted_content w)) }
{
    let text = body.to_bytes(alloc)?;
    let metrics = all_metrics(alloc, &body.thresholds)?;
    Ok(Wanted {
        unlocked: is_unlocked(body.state),
        granularity: body.granularity,
        reporting: 0,
        metrics,
        objects: body.objects,
        roots: body.roots,
        thresholds: body.thresholds,
        text,
    })
}

/// What the bytes ask for as a body of this side.
pub(crate) fn read_wanted(alloc: Global, side: Side, bytes: &[u8]) -> Result<Wanted, BodyError>
    ensures content { Reads result wanted_content (asked_of side bytes.now) (text_rule side bytes.now) }

    // The canonical text asks for the same.
    ensures back { IfOk result (λ w. asked_of side w.text ≡ Some (wanted_content w)) }
{
    match side {
        Side::Job => {
            let body = read_job(alloc, bytes)?;
            Ok(job_wanted(alloc, body)?)
        }
        Side::Monitor => {
            let body = read_monitor(alloc, bytes)?;
            Ok(monitor_wanted(alloc, body)?)
        }
    }
}
