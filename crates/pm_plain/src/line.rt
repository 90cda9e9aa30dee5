//! What one line says: an entry, with what its body asks for.
use crate::asking::{granularity, measured, nothing, parts, unlocked, watched};
use crate::body::{job_body, monitor_body};
use crate::words::{number, numbers, split};
use pm_base::{Blob, Text, is_job_id, read_moment};
use pm_history::{Entry, Side};
use pm_inventory::Inventory;
use pm_slow::{Meaning, Terms};
use std::alloc::{AllocError, Global};

/// The values of an event end before this one.
const VALUES: u64 = 1_048_576;

/// An entry; one that makes a job or a monitor has what its body asks for beside it.
#[derive(Drop)]
pub(crate) struct Said {
    pub(crate) entry: Entry,
    pub(crate) meaning: Option<Meaning>,
}

fn plain(entry: Entry) -> Said {
    Said {
        entry,
        meaning: None,
    }
}

fn id(alloc: Global, word: &[u8]) -> Result<Option<Text>, AllocError> {
    if is_job_id(word) && word.len() <= 32 {
        Ok(Some(Text::from_slice(alloc, word)?))
    } else {
        Ok(None)
    }
}

fn flag(word: &[u8]) -> Option<bool> {
    match word {
        b"0" => Some(false),
        b"1" => Some(true),
        _ => None,
    }
}

fn event(inventory: &Inventory, moment: u64, words: &[&[u8]]) -> Option<Said> {
    let [object, metric, value, registered] = words else {
        return None;
    };
    let object = number(object, u64::from(inventory.tree().len()))? as u16;
    let metric = number(metric, u64::from(inventory.catalogue().len()))? as u8;
    inventory.slot(object, metric)?;
    Some(plain(Entry::Event {
        moment,
        object,
        metric,
        value: number(value, VALUES)? as u32,
        registered: flag(registered)?,
    }))
}

// The terms of a job, by its words behind the id.
fn job_terms(
    alloc: Global,
    inventory: &Inventory,
    words: &[&[u8]],
) -> Result<Option<Terms>, AllocError> {
    let [period, reporting, state, metrics, objects] = words else {
        return Ok(None);
    };
    let Some(granularity) = granularity(period) else {
        return Ok(None);
    };
    let Some(parts) = parts(reporting, granularity) else {
        return Ok(None);
    };
    let Some(unlocked) = unlocked(state) else {
        return Ok(None);
    };
    let Some(metrics) = numbers(alloc, metrics, u64::from(inventory.catalogue().len()))? else {
        return Ok(None);
    };
    let Some(objects) = numbers(alloc, objects, u64::from(inventory.tree().len()))? else {
        return Ok(None);
    };
    let mut terms = nothing(alloc);
    terms.granularity = granularity;
    terms.parts = parts;
    terms.unlocked = unlocked;
    terms.measured = measured(alloc, inventory, metrics.as_slice(), objects.as_slice())?;
    Ok(Some(terms))
}

// The terms of a monitor, by its words behind the id.
fn monitor_terms(
    alloc: Global,
    inventory: &Inventory,
    words: &[&[u8]],
) -> Result<Option<Terms>, AllocError> {
    let [period, state, objects, thresholds @ ..] = words else {
        return Ok(None);
    };
    let Some(granularity) = granularity(period) else {
        return Ok(None);
    };
    let Some(unlocked) = unlocked(state) else {
        return Ok(None);
    };
    let Some(objects) = numbers(alloc, objects, u64::from(inventory.tree().len()))? else {
        return Ok(None);
    };
    let Some(watched) = watched(alloc, inventory, objects.as_slice(), thresholds)? else {
        return Ok(None);
    };
    let mut terms = nothing(alloc);
    terms.granularity = granularity;
    terms.unlocked = unlocked;
    terms.watched = watched;
    Ok(Some(terms))
}

// The body is the canonical one of what the line asks for.
fn made(
    alloc: Global,
    inventory: &Inventory,
    side: Side,
    moment: u64,
    words: &[&[u8]],
) -> Result<Option<Said>, AllocError> {
    let [name, rest @ ..] = words else {
        return Ok(None);
    };
    let Some(id) = id(alloc, name)? else {
        return Ok(None);
    };
    let terms = match side {
        Side::Job => job_terms(alloc, inventory, rest)?,
        Side::Monitor => monitor_terms(alloc, inventory, rest)?,
    };
    let Some(terms) = terms else {
        return Ok(None);
    };
    let body = match side {
        Side::Job => job_body(alloc, inventory, rest)?,
        Side::Monitor => monitor_body(alloc, inventory, rest)?,
    };
    let Some(meant) = body else {
        return Ok(None);
    };
    let body = Blob::from_slice(alloc, meant.as_bytes())?;
    let entry = match side {
        Side::Job => Entry::JobMade { moment, id, body },
        Side::Monitor => Entry::MonitorMade { moment, id, body },
    };
    Ok(Some(Said {
        entry,
        meaning: Some(Meaning {
            side,
            body: meant,
            terms,
        }),
    }))
}

// What happens to a job or a monitor that stands.
fn changed(
    alloc: Global,
    verb: &[u8],
    moment: u64,
    words: &[&[u8]],
) -> Result<Option<Said>, AllocError> {
    let [name] = words else {
        return Ok(None);
    };
    let Some(id) = id(alloc, name)? else {
        return Ok(None);
    };
    let entry = match verb {
        b"lock" => Entry::JobState {
            moment,
            id,
            unlocked: false,
        },
        b"unlock" => Entry::JobState {
            moment,
            id,
            unlocked: true,
        },
        b"delete" => Entry::JobDeleted { moment, id },
        b"mlock" => Entry::MonitorState {
            moment,
            id,
            unlocked: false,
        },
        b"munlock" => Entry::MonitorState {
            moment,
            id,
            unlocked: true,
        },
        b"mdelete" => Entry::MonitorDeleted { moment, id },
        _ => return Ok(None),
    };
    Ok(Some(plain(entry)))
}

/// What a line says; none where it isn't of the forms.
pub(crate) fn read_line(
    alloc: Global,
    inventory: &Inventory,
    line: &[u8],
) -> Result<Option<Said>, AllocError> {
    let words = split(alloc, b' ', line)?;
    let [verb, moment, rest @ ..] = words.as_slice() else {
        return Ok(None);
    };
    let Some(moment) = read_moment(moment) else {
        return Ok(None);
    };
    match *verb {
        b"boot" if rest.is_empty() => Ok(Some(plain(Entry::Boot { moment }))),
        b"now" if rest.is_empty() => Ok(Some(plain(Entry::Now { moment }))),
        b"event" => Ok(event(inventory, moment, rest)),
        b"job" => made(alloc, inventory, Side::Job, moment, rest),
        b"monitor" => made(alloc, inventory, Side::Monitor, moment, rest),
        verb => changed(alloc, verb, moment, rest),
    }
}
