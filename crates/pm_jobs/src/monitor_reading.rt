//! The bodies of monitors.
ghost use Rattle.std.specs.Prelude.{◌≡◌, codes, IfOk, map, option_map};
ghost use Rattle.serde_json.specs.View.{view, items_view};
ghost use Rattle.pm_asked.specs.BodyReading.{value_or, number_of, directions_of, threshold_of, thresholds_of, threshold_list_of, monitor_of, monitor_body};
ghost use Rattle.serde_json.specs.Find.{get_member};
ghost use Rattle.pm_jobs.specs.Content.{directions_content, threshold_content, monitor_content};
ghost use Rattle.pm_jobs.specs.Fields.{members_in};
ghost use Rattle.pm_jobs.specs.Reading.{tree_rule, monitor_rule, Reads};

use crate::fields::{
    is_object_of, items_from, metrics_at, names_at, period_at, state_at, tree_in, value_at,
    whole_at, whole_of,
};
use crate::{BodyError, Directions, MonitorBody, Threshold};
use serde_json::Value;
use std::alloc::{AllocError, Global};

const THRESHOLD_KEYS: [&str; 4] = [
    "hysteresis",
    "performanceMetrics",
    "thresholdDirection",
    "thresholdValue",
];

const MONITOR_KEYS: [&str; 5] = [
    "administrativeState",
    "monitorGranularityPeriod",
    "objectInstances",
    "rootObjectInstances",
    "thresholdInfoList",
];

const MAX_THRESHOLDS: usize = 16;

// 2 ^ 53 - 1.
const MAX_VALUE: u64 = 9_007_199_254_740_991;

fn directions_from(value: &Value) -> Option<Directions>
    ensures { option_map directions_content result ≡ directions_of (view value.now) }
{
    match value.as_str() {
        Some("UP") => Some(Directions::Up),
        Some("DOWN") => Some(Directions::Down),
        Some("UP_AND_DOWN") => Some(Directions::UpAndDown),
        _ => None,
    }
}

fn hysteresis_at(tree: &Value, value: u64) -> Option<u64>
    ensures { result ≡ value_or 0 (number_of value) (get_member (codes "hysteresis") (members_in (view tree.now))) }
{
    match value_at(tree, "hysteresis") {
        Some(hysteresis) => whole_of(hysteresis, value),
        None => Some(0),
    }
}

fn threshold_from(alloc: Global, tree: &Value) -> Result<Option<Threshold>, AllocError>
    ensures { IfOk result (λ o. option_map threshold_content o ≡ threshold_of (view tree.now)) }
{
    if !is_object_of(tree, &THRESHOLD_KEYS) {
        return Ok(None);
    }
    let Some(metrics) = metrics_at(alloc, tree)? else {
        return Ok(None);
    };
    let Some(directions) = value_at(tree, "thresholdDirection") else {
        return Ok(None);
    };
    let Some(directions) = directions_from(directions) else {
        return Ok(None);
    };
    let Some(value) = whole_at(tree, "thresholdValue", MAX_VALUE) else {
        return Ok(None);
    };
    let Some(hysteresis) = hysteresis_at(tree, value) else {
        return Ok(None);
    };
    Ok(Some(Threshold {
        metrics,
        directions,
        value,
        hysteresis,
    }))
}

fn each_threshold(alloc: Global, items: &[Value]) -> Result<Option<Vec<Threshold>>, AllocError>
    ensures { IfOk result (λ o. option_map (λ v. map threshold_content v.items) o ≡ thresholds_of (items_view items.now)) }
{
    let mut thresholds = Vec::new(alloc);
    for item in items {
        let Some(threshold) = threshold_from(alloc, item)? else {
            return Ok(None);
        };
        if thresholds.push(threshold).is_err() {
            return Err(AllocError);
        }
    }
    Ok(Some(thresholds))
}

fn thresholds_from(alloc: Global, value: &Value) -> Result<Option<Vec<Threshold>>, AllocError>
    ensures { IfOk result (λ o. option_map (λ v. map threshold_content v.items) o ≡ threshold_list_of (view value.now)) }
{
    let Some(items) = items_from(value) else {
        return Ok(None);
    };
    if items.is_empty() || MAX_THRESHOLDS < items.len() {
        return Ok(None);
    }
    each_threshold(alloc, items)
}

fn monitor_in(alloc: Global, tree: &Value) -> Result<MonitorBody, BodyError>
    ensures { Reads result monitor_content (monitor_of (view tree.now)) (tree_rule (view tree.now)) }
{
    if !is_object_of(tree, &MONITOR_KEYS) {
        return Err(BodyError::J1);
    }
    let Some(state) = state_at(tree) else {
        return Err(BodyError::J1);
    };
    let Some(granularity) = period_at(tree, "monitorGranularityPeriod") else {
        return Err(BodyError::J1);
    };
    let Some(objects) = names_at(alloc, tree, "objectInstances")? else {
        return Err(BodyError::J1);
    };
    let Some(roots) = names_at(alloc, tree, "rootObjectInstances")? else {
        return Err(BodyError::J1);
    };
    let Some(list) = value_at(tree, "thresholdInfoList") else {
        return Err(BodyError::J1);
    };
    let Some(thresholds) = thresholds_from(alloc, list)? else {
        return Err(BodyError::J11);
    };
    Ok(MonitorBody {
        state,
        granularity,
        objects,
        roots,
        thresholds,
    })
}

/// What the bytes say as the body of a monitor.
pub fn read_monitor(alloc: Global, bytes: &[u8]) -> Result<MonitorBody, BodyError>
    ensures { Reads result monitor_content (monitor_body bytes.now) (monitor_rule bytes.now) }
{
    match tree_in(alloc, bytes)? {
        Some(tree) => monitor_in(alloc, &tree),
        None => Err(BodyError::J1),
    }
}
