//! What the words of a job or a monitor ask for.
use crate::words::{number, numbers, split};
use pm_base::{CLASSES, Class};
use pm_history::Metric;
use pm_inventory::Inventory;
use pm_meas::Kind;
use pm_slow::{Measured, Terms, Watched};
use std::alloc::{AllocError, Global};

/// The greatest threshold, 2 ^ 53 - 1.
const MAX_THRESHOLD: u64 = 9_007_199_254_740_991;

/// The most thresholds of a monitor.
const MAX_THRESHOLDS: usize = 16;

/// A granularity period in seconds, as its number of ticks.
pub(crate) fn granularity(word: &[u8]) -> Option<u32> {
    match number(word, 3_601) {
        Some(60) => Some(1),
        Some(300) => Some(5),
        Some(900) => Some(15),
        Some(1_800) => Some(30),
        Some(3_600) => Some(60),
        _ => None,
    }
}

/// A reporting period in minutes, as its number of granularity periods.
pub(crate) fn parts(word: &[u8], granularity: u32) -> Option<u32> {
    let minutes = number(word, 1_441)? as u32;
    if minutes > 0 && granularity > 0 && 1_440 % minutes == 0 && minutes % granularity == 0 {
        Some(minutes / granularity)
    } else {
        None
    }
}

pub(crate) fn unlocked(word: &[u8]) -> Option<bool> {
    match word {
        b"UNLOCKED" => Some(true),
        b"LOCKED" => Some(false),
        _ => None,
    }
}

// The metrics of a class among these numbers, in catalogue order.
fn metrics_of(
    alloc: Global,
    inventory: &Inventory,
    class: Class,
    among: &[u64],
) -> Result<Vec<Metric>, AllocError> {
    let mut metrics = Vec::new(alloc);
    for number in 0..inventory.catalogue().len() {
        let def = inventory.catalogue().def(number);
        if def.class == class && among.contains(&u64::from(number)) {
            let reduce = def.reduce;
            metrics.push(Metric { number, reduce })?;
        }
    }
    Ok(metrics)
}

// The objects of a class among these numbers, in tree order.
fn objects_of(
    alloc: Global,
    inventory: &Inventory,
    class: Class,
    among: &[u64],
) -> Result<Vec<u16>, AllocError> {
    let mut objects = Vec::new(alloc);
    for object in 0..inventory.tree().len() {
        if inventory.tree().class(object) == class && among.contains(&u64::from(object)) {
            objects.push(object)?;
        }
    }
    Ok(objects)
}

/// What a job measures, by class.
pub(crate) fn measured(
    alloc: Global,
    inventory: &Inventory,
    metrics: &[u64],
    objects: &[u64],
) -> Result<Vec<Measured>, AllocError> {
    let mut measured = Vec::new(alloc);
    for class in CLASSES {
        let metrics = metrics_of(alloc, inventory, class, metrics)?;
        let objects = objects_of(alloc, inventory, class, objects)?;
        if !metrics.is_empty() {
            measured.push(Measured {
                class,
                metrics,
                objects,
            })?;
        }
    }
    Ok(measured)
}

// One threshold, as its words give it.
#[derive(Drop)]
pub(crate) struct Threshold {
    pub(crate) metrics: Vec<u64>,
    pub(crate) up: bool,
    pub(crate) down: bool,
    pub(crate) value: u64,
    pub(crate) hysteresis: u64,
}

fn directions(word: &[u8]) -> Option<(bool, bool)> {
    match word {
        b"UP" => Some((true, false)),
        b"DOWN" => Some((false, true)),
        b"UP_AND_DOWN" => Some((true, true)),
        _ => None,
    }
}

pub(crate) fn read_threshold(
    alloc: Global,
    inventory: &Inventory,
    word: &[u8],
) -> Result<Option<Threshold>, AllocError> {
    let words = split(alloc, b':', word)?;
    let [metrics, direction, value, hysteresis] = words.as_slice() else {
        return Ok(None);
    };
    let end = u64::from(inventory.catalogue().len());
    let Some(metrics) = numbers(alloc, metrics, end)? else {
        return Ok(None);
    };
    let Some((up, down)) = directions(direction) else {
        return Ok(None);
    };
    let Some(value) = number(value, MAX_THRESHOLD + 1) else {
        return Ok(None);
    };
    let Some(hysteresis) = number(hysteresis, MAX_THRESHOLD + 1) else {
        return Ok(None);
    };
    if hysteresis > value {
        return Ok(None);
    }
    Ok(Some(Threshold {
        metrics,
        up,
        down,
        value,
        hysteresis,
    }))
}

// The hysteresis counts as 0 on a counter.
fn margin(kind: Kind, hysteresis: u64) -> u64 {
    match kind {
        Kind::Cc => 0,
        _ => hysteresis,
    }
}

fn push_watched(
    alloc: Global,
    inventory: &Inventory,
    objects: &[u64],
    number: u8,
    threshold: &Threshold,
    out: &mut Vec<Watched>,
) -> Result<(), AllocError> {
    for metric in 0..inventory.catalogue().len() {
        if threshold.metrics.contains(&u64::from(metric)) {
            let def = inventory.catalogue().def(metric);
            let margin = margin(def.kind, threshold.hysteresis);
            let reduce = def.reduce;
            out.push(Watched {
                threshold: number,
                metric: Metric {
                    number: metric,
                    reduce,
                },
                objects: objects_of(alloc, inventory, def.class, objects)?,
                value: threshold.value,
                hysteresis: threshold.hysteresis,
                high: threshold.value.saturating_add(margin),
                low: threshold.value.saturating_sub(margin),
                up: threshold.up,
                down: threshold.down,
            })?;
        }
    }
    Ok(())
}

/// What a monitor watches, by threshold and by metric in catalogue order; none where a word is no threshold, or there are none or too
/// many.
pub(crate) fn watched(
    alloc: Global,
    inventory: &Inventory,
    objects: &[u64],
    words: &[&[u8]],
) -> Result<Option<Vec<Watched>>, AllocError> {
    if words.is_empty() || words.len() > MAX_THRESHOLDS {
        return Ok(None);
    }
    let mut watched = Vec::new(alloc);
    let mut number = 0u8;
    for word in words {
        let Some(threshold) = read_threshold(alloc, inventory, word)? else {
            return Ok(None);
        };
        push_watched(alloc, inventory, objects, number, &threshold, &mut watched)?;
        number = number.saturating_add(1);
    }
    Ok(Some(watched))
}

/// What a body asks for that isn't in the book: nothing.
pub(crate) fn nothing(alloc: Global) -> Terms {
    Terms {
        granularity: 1,
        parts: 1,
        unlocked: false,
        measured: Vec::new(alloc),
        watched: Vec::new(alloc),
    }
}
