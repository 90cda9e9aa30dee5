//! The values of monitors, period by period.
ghost use Rattle.std.specs.Prelude.{◌≡◌, ◌*◌, ◌<◌, ◌^◌, ◌++◌, length, IfOk, OnOk, option_to_list};
ghost use Rattle.pm_history.specs.History.{history_of};
ghost use Rattle.pm_history.specs.Notices.{value_at, value_sequence};
ghost use Rattle.pm_slow.specs.Book.{terms_in};

use crate::book::Book;
use crate::counted::is_suspect;
use crate::making::Making;
use crate::value::measured_value;
use pm_base::tick;
use pm_history::{Entry, Metric};
use std::alloc::{AllocError, Global};

/// The value of the granularity period that ends with a tick, unless it is null or suspect.
pub(crate) fn value_at(
    alloc: Global,
    book: &Book,
    history: &[Entry],
    w: &Making,
    granularity: u64,
    object: u16,
    metric: Metric,
    end: u64,
) -> Result<Option<u64>, AllocError>
    requires few { length history.now < 2 ^ 32 }
    requires moments { 60 * end < 2 ^ 64 }
    ensures { IfOk result (λ v. option_to_list v ≡ value_at (terms_in book.now) (history_of history.now) w.now granularity object metric end) }
{
    if granularity > 0
        && granularity <= end
        && end % granularity == 0
        && !is_suspect(book, history, w, end - granularity, granularity)
    {
        measured_value(
            alloc,
            book,
            history,
            w,
            object,
            metric,
            end - granularity,
            granularity,
        )
    } else {
        Ok(None)
    }
}

fn push_value(values: &mut Vec<u64>, value: Option<u64>) -> Result<(), AllocError>
    ensures { OnOk result (values.new.items ≡ values.old.items ++ option_to_list value) }
{
    if let Some(value) = value {
        values.push(value)?;
    }
    Ok(())
}

/// The values of the periods that end behind the tick at which the monitor was armed, up to a tick.
pub(crate) fn value_sequence(
    alloc: Global,
    book: &Book,
    history: &[Entry],
    w: &Making,
    granularity: u64,
    object: u16,
    metric: Metric,
    armed: u64,
    end: u64,
) -> Result<Vec<u64>, AllocError>
    requires few { length history.now < 2 ^ 32 }
    requires moments { 60 * end < 2 ^ 64 }
    ensures { IfOk result (λ v. v.items ≡ value_sequence (terms_in book.now) (history_of history.now) w.now granularity object metric armed end) }
{
    let from = tick(armed);
    let count = end.saturating_sub(from);
    let mut values = Vec::new(alloc);
    for k in 0..count {
        let value = value_at(
            alloc,
            book,
            history,
            w,
            granularity,
            object,
            metric,
            from + k + 1,
        )?;
        push_value(&mut values, value)?;
    }
    Ok(values)
}
