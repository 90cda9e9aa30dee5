//! The bodies of jobs, and of changes of state.
ghost use Rattle.std.specs.Prelude.{◌≡◌, IfOk, option_map};
ghost use Rattle.serde_json.specs.View.{view};
ghost use Rattle.pm_asked.specs.BodyReading.{job_of, job_body};
ghost use Rattle.pm_jobs.specs.Content.{is_unlocked, job_content};
ghost use Rattle.pm_jobs.specs.Reading.{state_tree, state_body, Reads};

use crate::fields::{
    is_object_of, metrics_at, names_at, period_at, state_at, state_from, tree_in, value_at,
};
use crate::{BodyError, JobBody, State};
use serde_json::Value;
use std::alloc::{AllocError, Global};

const JOB_KEYS: [&str; 6] = [
    "administrativeState",
    "granularityPeriod",
    "objectInstances",
    "performanceMetrics",
    "reportingPeriod",
    "rootObjectInstances",
];

fn job_in(alloc: Global, tree: &Value) -> Result<Option<JobBody>, AllocError>
    ensures { IfOk result (λ o. option_map job_content o ≡ job_of (view tree.now)) }
{
    if !is_object_of(tree, &JOB_KEYS) {
        return Ok(None);
    }
    let Some(state) = state_at(tree) else {
        return Ok(None);
    };
    let Some(granularity) = period_at(tree, "granularityPeriod") else {
        return Ok(None);
    };
    let Some(objects) = names_at(alloc, tree, "objectInstances")? else {
        return Ok(None);
    };
    let Some(metrics) = metrics_at(alloc, tree)? else {
        return Ok(None);
    };
    let Some(reporting) = period_at(tree, "reportingPeriod") else {
        return Ok(None);
    };
    let Some(roots) = names_at(alloc, tree, "rootObjectInstances")? else {
        return Ok(None);
    };
    Ok(Some(JobBody {
        state,
        granularity,
        objects,
        metrics,
        reporting,
        roots,
    }))
}

/// What the bytes say as the body of a job.
pub fn read_job(alloc: Global, bytes: &[u8]) -> Result<JobBody, BodyError>
    ensures { Reads result job_content (job_body bytes.now) BodyError.J1 }
{
    let Some(tree) = tree_in(alloc, bytes)? else {
        return Err(BodyError::J1);
    };
    match job_in(alloc, &tree)? {
        Some(body) => Ok(body),
        None => Err(BodyError::J1),
    }
}

fn state_alone(tree: &Value) -> Option<State>
    ensures { option_map is_unlocked result ≡ state_tree (view tree.now) }
{
    if !is_object_of(tree, &["administrativeState"]) {
        return None;
    }
    match value_at(tree, "administrativeState") {
        Some(value) => state_from(value),
        None => None,
    }
}

/// The state that the bytes say as the body of a change of state.
pub fn read_state(alloc: Global, bytes: &[u8]) -> Result<State, BodyError>
    ensures { Reads result is_unlocked (state_body bytes.now) BodyError.J1 }
{
    let Some(tree) = tree_in(alloc, bytes)? else {
        return Err(BodyError::J1);
    };
    match state_alone(&tree) {
        Some(state) => Ok(state),
        None => Err(BodyError::J1),
    }
}
