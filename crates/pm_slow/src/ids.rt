//! The ids under which jobs and monitors stand, in byte order.
ghost use Rattle.std.specs.Prelude.{◌≡◌, ◌++◌, ◌∷◌, [], OnOk, IfOk};
ghost use Rattle.std.specs.Str.{bytes_eq};
ghost use Rattle.pm_history.specs.History.{history_of};
ghost use Rattle.pm_history.specs.Standing.{with_id, without_id, ids_next, ids_after};

use crate::copy::copy;
use pm_base::Text;
use pm_history::{Entry, Side};
use std::alloc::{AllocError, Global};
use std::cmp::Ordering;

fn push(alloc: Global, out: &mut Vec<Text>, id: &Text) -> Result<(), AllocError>
    ensures { OnOk result (out.new.items ≡ out.old.items ++ id.now ∷ []) }
{
    out.push(copy(alloc, id)?)?;
    Ok(())
}

fn push_all(alloc: Global, out: &mut Vec<Text>, ids: &[Text]) -> Result<(), AllocError>
    ensures { OnOk result (out.new.items ≡ out.old.items ++ ids.now) }
{
    match ids {
        [] => Ok(()),
        [first, rest @ ..] => {
            push(alloc, out, first)?;
            push_all(alloc, out, rest)
        }
    }
}

fn push_with(alloc: Global, out: &mut Vec<Text>, id: &Text, ids: &[Text]) -> Result<(), AllocError>
    ensures { OnOk result (out.new.items ≡ out.old.items ++ with_id id.now ids.now) }
{
    match ids {
        [] => push(alloc, out, id),
        [first, rest @ ..] => match id.as_bytes().cmp(first.as_bytes()) {
            Ordering::Less => {
                push(alloc, out, id)?;
                push_all(alloc, out, ids)
            }
            Ordering::Equal => push_all(alloc, out, ids),
            Ordering::Greater => {
                push(alloc, out, first)?;
                push_with(alloc, out, id, rest)
            }
        },
    }
}

fn push_without(
    alloc: Global,
    out: &mut Vec<Text>,
    id: &Text,
    ids: &[Text],
) -> Result<(), AllocError>
    ensures { OnOk result (out.new.items ≡ out.old.items ++ without_id id.now ids.now) }
{
    match ids {
        [] => Ok(()),
        [first, rest @ ..] => {
            if first.as_bytes() != id.as_bytes() {
                push(alloc, out, first)?;
            }
            push_without(alloc, out, id, rest)
        }
    }
}

fn with_id(alloc: Global, id: &Text, ids: &[Text]) -> Result<Vec<Text>, AllocError>
    ensures { IfOk result (λ v. v.items ≡ with_id id.now ids.now) }
{
    let mut out = Vec::new(alloc);
    push_with(alloc, &mut out, id, ids)?;
    Ok(out)
}

fn without_id(alloc: Global, id: &Text, ids: &[Text]) -> Result<Vec<Text>, AllocError>
    ensures { IfOk result (λ v. v.items ≡ without_id id.now ids.now) }
{
    let mut out = Vec::new(alloc);
    push_without(alloc, &mut out, id, ids)?;
    Ok(out)
}

fn ids_next(
    alloc: Global,
    side: Side,
    ids: Vec<Text>,
    entry: &Entry,
) -> Result<Vec<Text>, AllocError>
    ensures { IfOk result (λ v. v.items ≡ ids_next side ids.items entry.now) }
{
    match (side, entry) {
        (Side::Job, Entry::JobMade { id, .. }) => with_id(alloc, id, ids.as_slice()),
        (Side::Job, Entry::JobDeleted { id, .. }) => without_id(alloc, id, ids.as_slice()),
        (Side::Monitor, Entry::MonitorMade { id, .. }) => with_id(alloc, id, ids.as_slice()),
        (Side::Monitor, Entry::MonitorDeleted { id, .. }) => without_id(alloc, id, ids.as_slice()),
        _ => Ok(ids),
    }
}

/// The ids of a side, in byte order.
pub fn ids_after(alloc: Global, side: Side, history: &[Entry]) -> Result<Vec<Text>, AllocError>
    ensures { IfOk result (λ v. v.items ≡ ids_after side (history_of history.now)) }
{
    let mut ids = Vec::new(alloc);
    for entry in history {
        ids = ids_next(alloc, side, ids, entry)?;
    }
    Ok(ids)
}
