//! The crossings of monitors, period by period.
ghost use Rattle.std.specs.Prelude.{◌≡◌, ◌-◌, ◌*◌, ◌<◌, ◌^◌, ◌++◌, length, Some, IfOk, OnOk, option_to_list};
ghost use Rattle.std.specs.List.{flat_map};
ghost use Rattle.pm_history.specs.History.{history_of};
ghost use Rattle.pm_history.specs.Crossed.{crossing_in};
ghost use Rattle.pm_history.specs.Notices.{crossed, crossed_last, crossing_at, crossings_by, crossings_of, crossings_under, crossings_at};
ghost use Rattle.pm_slow.specs.Book.{terms_in};

use crate::book::Book;
use crate::crossing::crossing_in;
use crate::history::before;
use crate::ids::ids_after;
use crate::making::Making;
use crate::sequence::{value_at, value_sequence};
use crate::standing::{Standing, standing_after};
use crate::terms::Watched;
use pm_base::Text;
use pm_history::{Entry, Side};
use std::alloc::{AllocError, Global};
use std::marker::Model;

/// A crossing, in the numbers of the inventory.
#[derive(Drop)]
pub struct Crossed {
    pub monitor: Text,
    /// The threshold's number in the monitor's list, from 0.
    pub threshold: u8,
    pub metric: u8,
    pub object: u16,
    /// Upward, or else downward.
    pub up: bool,
    pub value: u64,
    /// The tick at which the period ends.
    pub end: u64,
    /// The threshold and the hysteresis, as given.
    pub limit: u64,
    pub hysteresis: u64,
}

impl Model for Crossed {
    ghost use Rattle.pm_history.specs.Notices.{Crossed};

    ghost Value = { Crossed };

    ghost view = { λ c. record {
      monitor = c.monitor;
      threshold = c.threshold;
      metric = c.metric;
      object = c.object;
      up = c.up;
      value = c.value;
      end = c.end;
      limit = c.limit;
      hysteresis = c.hysteresis;
    } };
}

fn in_direction(
    alloc: Global,
    w: &Making,
    watched: &Watched,
    object: u16,
    end: u64,
    value: u64,
    direction: Option<bool>,
) -> Result<Option<Crossed>, AllocError>
    ensures { IfOk result (λ c. option_to_list c ≡ crossed w.now.id watched.now object end value direction) }
{
    match direction {
        None => Ok(None),
        Some(up) => {
            let monitor = w.copied_id(alloc)?;
            Ok(Some(Crossed {
                monitor,
                threshold: watched.threshold,
                metric: watched.metric.number,
                object,
                up,
                value,
                end,
                limit: watched.value,
                hysteresis: watched.hysteresis,
            }))
        }
    }
}

fn last_crossing(watched: &Watched, values: &[u64]) -> Option<bool>
    ensures { result ≡ crossing_in watched.now.high watched.now.low watched.now.up watched.now.down values.now (length values.now - 1) }
{
    crossing_in(
        watched.high,
        watched.low,
        watched.up,
        watched.down,
        values,
        values.len().saturating_sub(1),
    )
}

fn crossed_last(
    alloc: Global,
    w: &Making,
    watched: &Watched,
    object: u16,
    end: u64,
    values: &[u64],
    value: Option<u64>,
) -> Result<Option<Crossed>, AllocError>
    ensures { IfOk result (λ c. option_to_list c ≡ crossed_last w.now.id watched.now object end values.now (option_to_list value)) }
{
    match value {
        None => Ok(None),
        Some(value) => in_direction(
            alloc,
            w,
            watched,
            object,
            end,
            value,
            last_crossing(watched, values),
        ),
    }
}

fn crossing_at(
    alloc: Global,
    book: &Book,
    history: &[Entry],
    w: &Making,
    granularity: u64,
    armed: u64,
    end: u64,
    watched: &Watched,
    object: u16,
) -> Result<Option<Crossed>, AllocError>
    requires few { length history.now < 2 ^ 32 }
    requires moments { 60 * end < 2 ^ 64 }
    ensures { IfOk result (λ c. option_to_list c ≡ crossing_at (terms_in book.now) (history_of history.now) w.now granularity armed end watched.now object) }
{
    let metric = watched.metric();
    let value = value_at(alloc, book, history, w, granularity, object, metric, end)?;
    let values = value_sequence(
        alloc,
        book,
        history,
        w,
        granularity,
        object,
        metric,
        armed,
        end,
    )?;
    crossed_last(alloc, w, watched, object, end, values.as_slice(), value)
}

fn push_crossing(crossings: &mut Vec<Crossed>, crossing: Option<Crossed>) -> Result<(), AllocError>
    ensures { OnOk result (crossings.new.items ≡ crossings.old.items ++ option_to_list crossing) }
{
    if let Some(crossing) = crossing {
        crossings.push(crossing)?;
    }
    Ok(())
}

fn push_crossings_on(
    alloc: Global,
    book: &Book,
    history: &[Entry],
    w: &Making,
    granularity: u64,
    armed: u64,
    end: u64,
    watched: &Watched,
    objects: &[u16],
    out: &mut Vec<Crossed>,
) -> Result<(), AllocError>
    requires few { length history.now < 2 ^ 32 }
    requires moments { 60 * end < 2 ^ 64 }
    ensures { OnOk result (out.new.items ≡ out.old.items ++ flat_map (crossing_at (terms_in book.now) (history_of history.now) w.now granularity armed end watched.now) objects.now) }
{
    match objects {
        [] => Ok(()),
        [object, rest @ ..] => {
            push_crossing(
                out,
                crossing_at(
                    alloc,
                    book,
                    history,
                    w,
                    granularity,
                    armed,
                    end,
                    watched,
                    *object,
                )?,
            )?;
            push_crossings_on(
                alloc,
                book,
                history,
                w,
                granularity,
                armed,
                end,
                watched,
                rest,
                out,
            )
        }
    }
}

fn push_crossings_by(
    alloc: Global,
    book: &Book,
    history: &[Entry],
    w: &Making,
    granularity: u64,
    armed: u64,
    end: u64,
    watched: &[Watched],
    out: &mut Vec<Crossed>,
) -> Result<(), AllocError>
    requires few { length history.now < 2 ^ 32 }
    requires moments { 60 * end < 2 ^ 64 }
    ensures { OnOk result (out.new.items ≡ out.old.items ++ flat_map (crossings_by (terms_in book.now) (history_of history.now) w.now granularity armed end) watched.now) }
{
    match watched {
        [] => Ok(()),
        [one, rest @ ..] => {
            push_crossings_on(
                alloc,
                book,
                history,
                w,
                granularity,
                armed,
                end,
                one,
                one.objects(),
                out,
            )?;
            push_crossings_by(alloc, book, history, w, granularity, armed, end, rest, out)
        }
    }
}

fn push_crossings_of(
    alloc: Global,
    book: &Book,
    history: &[Entry],
    id: &Text,
    end: u64,
    standing: &Standing,
    out: &mut Vec<Crossed>,
) -> Result<(), AllocError>
    requires few { length history.now < 2 ^ 32 }
    requires moments { 60 * end < 2 ^ 64 }
    ensures { OnOk result (out.new.items ≡ out.old.items ++ crossings_of (terms_in book.now) (history_of history.now) id.now end (Some standing.now)) }
{
    let w = standing.making(Side::Monitor, id);
    let terms = book.terms(Side::Monitor, standing.body().as_bytes());
    push_crossings_by(
        alloc,
        book,
        history,
        &w,
        terms.granularity(),
        standing.armed(),
        end,
        terms.watched(),
        out,
    )
}

fn push_crossings_under(
    alloc: Global,
    book: &Book,
    history: &[Entry],
    end: u64,
    id: &Text,
    out: &mut Vec<Crossed>,
) -> Result<(), AllocError>
    requires few { length history.now < 2 ^ 32 }
    requires moments { 60 * end < 2 ^ 64 }
    ensures { OnOk result (out.new.items ≡ out.old.items ++ crossings_under (terms_in book.now) (history_of history.now) end id.now) }
{
    match standing_after(book, Side::Monitor, before(history, 60 * end), id) {
        None => Ok(()),
        Some(standing) => push_crossings_of(alloc, book, history, id, end, &standing, out),
    }
}

fn push_crossings_among(
    alloc: Global,
    book: &Book,
    history: &[Entry],
    end: u64,
    ids: &[Text],
    out: &mut Vec<Crossed>,
) -> Result<(), AllocError>
    requires few { length history.now < 2 ^ 32 }
    requires moments { 60 * end < 2 ^ 64 }
    ensures { OnOk result (out.new.items ≡ out.old.items ++ flat_map (crossings_under (terms_in book.now) (history_of history.now) end) ids.now) }
{
    match ids {
        [] => Ok(()),
        [id, rest @ ..] => {
            push_crossings_under(alloc, book, history, end, id, out)?;
            push_crossings_among(alloc, book, history, end, rest, out)
        }
    }
}

/// The crossings of the periods that end with a tick: by monitor in byte order of id, by threshold, by metric in catalogue order, by
/// object in tree order.
pub fn crossings_at(
    alloc: Global,
    book: &Book,
    history: &[Entry],
    end: u64,
) -> Result<Vec<Crossed>, AllocError>
    requires few { length history.now < 2 ^ 32 }
    requires moments { 60 * end < 2 ^ 64 }
    ensures { IfOk result (λ v. v.items ≡ crossings_at (terms_in book.now) (history_of history.now) end) }
{
    let ids = ids_after(alloc, Side::Monitor, before(history, 60 * end))?;
    let mut out = Vec::new(alloc);
    push_crossings_among(alloc, book, history, end, ids.as_slice(), &mut out)?;
    Ok(out)
}
