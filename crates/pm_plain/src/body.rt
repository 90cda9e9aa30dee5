//! The canonical bodies of what is made, by the words of its line.
use crate::asking::{Threshold as Words, read_threshold, unlocked};
use crate::words::{number, numbers};
use pm_base::Blob;
use pm_inventory::Inventory;
use pm_jobs::{Directions, JobBody, MonitorBody, State, Threshold};
use std::alloc::{AllocError, Global};

fn object_names(
    alloc: Global,
    inventory: &Inventory,
    objects: &[u64],
) -> Result<Vec<String>, AllocError> {
    let mut names = Vec::new(alloc);
    for object in objects {
        if *object < u64::from(inventory.tree().len()) {
            let name = inventory.tree().text(*object as u16);
            names.push(String::from_utf8_lossy(alloc, name)?)?;
        }
    }
    Ok(names)
}

fn metric_names(
    alloc: Global,
    inventory: &Inventory,
    metrics: &[u64],
) -> Result<Vec<String>, AllocError> {
    let mut names = Vec::new(alloc);
    for metric in metrics {
        if *metric < u64::from(inventory.catalogue().len()) {
            let def = inventory.catalogue().def(*metric as u8);
            names.push(String::from_utf8_lossy(alloc, def.name.as_bytes())?)?;
        }
    }
    Ok(names)
}

fn state(word: &[u8]) -> Option<State> {
    match unlocked(word) {
        Some(true) => Some(State::Unlocked),
        Some(false) => Some(State::Locked),
        None => None,
    }
}

/// The body of a job.
pub(crate) fn job_body(
    alloc: Global,
    inventory: &Inventory,
    words: &[&[u8]],
) -> Result<Option<Blob>, AllocError> {
    let [period, reporting, lock, metrics, objects] = words else {
        return Ok(None);
    };
    let Some(granularity) = number(period, 3_601) else {
        return Ok(None);
    };
    let Some(reporting) = number(reporting, 1_441) else {
        return Ok(None);
    };
    let Some(state) = state(lock) else {
        return Ok(None);
    };
    let Some(metrics) = numbers(alloc, metrics, u64::from(inventory.catalogue().len()))? else {
        return Ok(None);
    };
    let Some(objects) = numbers(alloc, objects, u64::from(inventory.tree().len()))? else {
        return Ok(None);
    };
    let body = JobBody {
        state,
        granularity: granularity as u32,
        objects: object_names(alloc, inventory, objects.as_slice())?,
        metrics: metric_names(alloc, inventory, metrics.as_slice())?,
        reporting: reporting as u32,
        roots: Vec::new(alloc),
    };
    Ok(Some(body.to_bytes(alloc)?))
}

fn directions(words: &Words) -> Directions {
    match (words.up, words.down) {
        (true, true) => Directions::UpAndDown,
        (true, false) => Directions::Up,
        _ => Directions::Down,
    }
}

fn thresholds(
    alloc: Global,
    inventory: &Inventory,
    words: &[&[u8]],
) -> Result<Option<Vec<Threshold>>, AllocError> {
    let mut thresholds = Vec::new(alloc);
    for word in words {
        let Some(words) = read_threshold(alloc, inventory, word)? else {
            return Ok(None);
        };
        thresholds.push(Threshold {
            metrics: metric_names(alloc, inventory, words.metrics.as_slice())?,
            directions: directions(&words),
            value: words.value,
            hysteresis: words.hysteresis,
        })?;
    }
    Ok(Some(thresholds))
}

/// The body of a monitor.
pub(crate) fn monitor_body(
    alloc: Global,
    inventory: &Inventory,
    words: &[&[u8]],
) -> Result<Option<Blob>, AllocError> {
    let [period, lock, objects, words @ ..] = words else {
        return Ok(None);
    };
    let Some(granularity) = number(period, 3_601) else {
        return Ok(None);
    };
    let Some(state) = state(lock) else {
        return Ok(None);
    };
    let Some(objects) = numbers(alloc, objects, u64::from(inventory.tree().len()))? else {
        return Ok(None);
    };
    let Some(thresholds) = thresholds(alloc, inventory, words)? else {
        return Ok(None);
    };
    let body = MonitorBody {
        state,
        granularity: granularity as u32,
        objects: object_names(alloc, inventory, objects.as_slice())?,
        roots: Vec::new(alloc),
        thresholds,
    };
    Ok(Some(body.to_bytes(alloc)?))
}
