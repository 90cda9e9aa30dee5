//! Counted events, and values.
ghost use Rattle.std.specs.Prelude.{◌≡◌, ◌+◌, ◌*◌, ◌<◌, ◌≤◌, ◌^◌, ◌&&◌, ◌++◌, ℕ, Bool, length, IfOk, OnOk, option_to_list};
ghost use Rattle.pm_base.specs.Moment.{tick_of};
ghost use Rattle.pm_history.specs.Entry.{moment_of};
ghost use Rattle.pm_history.specs.History.{history_of};
ghost use Rattle.pm_history.specs.Ticks.{is_within};
ghost use Rattle.pm_history.specs.Counted.{is_counted};
ghost use Rattle.pm_history.specs.Value.{value_where, counted_values, measured_value};
ghost use Rattle.pm_slow.specs.Book.{terms_in};

use crate::book::Book;
use crate::counted::{is_counted, some_counted};
use crate::making::Making;
use pm_base::tick;
use pm_history::{Entry, Metric};
use pm_meas::plain::value_of;
use std::alloc::{AllocError, Global};

// The value of a registered event of the object and the metric, where its tick passes.
pub(crate) fn value_in(entry: &Entry, object: u16, metric: u8, passes: bool) -> Option<u32>
    ensures { (p : ℕ → Bool) → passes ≡ p (tick_of (moment_of entry.now)) → option_to_list result ≡ value_where object metric p entry.now }
{
    match entry {
        Entry::Event {
            moment: _,
            object: o,
            metric: m,
            value,
            registered,
        } => {
            if *o == object && *m == metric && *registered && passes {
                Some(*value)
            } else {
                None
            }
        }
        _ => None,
    }
}

pub(crate) fn add(values: &mut Vec<u32>, value: Option<u32>) -> Result<(), AllocError>
    ensures { OnOk result (values.new.items ≡ values.old.items ++ option_to_list value) }
{
    if let Some(value) = value {
        values.push(value)?;
    }
    Ok(())
}

// Whether the tick of an entry lies in the period and is counted.
fn passes(book: &Book, history: &[Entry], w: &Making, first: u64, ticks: u64, entry: &Entry) -> bool
    requires { 60 * (first + ticks) < 2 ^ 64 }
    ensures { result ≡ (is_within first ticks (tick_of (moment_of entry.now)) && is_counted (terms_in book.now) (history_of history.now) w.now (tick_of (moment_of entry.now))) }
{
    let at = tick(entry.moment());
    first <= at && at < first + ticks && is_counted(book, history, w, at)
}

/// The values of the registered events of an object and a metric whose ticks lie in the period and are counted, in order.
pub fn counted_values(
    alloc: Global,
    book: &Book,
    history: &[Entry],
    w: &Making,
    object: u16,
    metric: u8,
    first: u64,
    ticks: u64,
) -> Result<Vec<u32>, AllocError>
    requires { 60 * (first + ticks) < 2 ^ 64 }
    ensures values { IfOk result (λ v. v.items ≡ counted_values (terms_in book.now) (history_of history.now) w.now object metric first ticks) }
    ensures few { IfOk result (λ v. length v.items ≤ length history.now) }
{
    let mut values = Vec::new(alloc);
    for entry in history {
        let passes = passes(book, history, w, first, ticks, entry);
        add(&mut values, value_in(entry, object, metric, passes))?;
    }
    Ok(values)
}

/// The value of a metric on an object over a period; None stands for null.
pub fn measured_value(
    alloc: Global,
    book: &Book,
    history: &[Entry],
    w: &Making,
    object: u16,
    metric: Metric,
    first: u64,
    ticks: u64,
) -> Result<Option<u64>, AllocError>
    requires few { length history.now < 2 ^ 32 }
    requires moments { 60 * (first + ticks) < 2 ^ 64 }
    ensures { IfOk result (λ v. v ≡ measured_value (terms_in book.now) (history_of history.now) w.now object metric first ticks) }
{
    if some_counted(book, history, w, first, ticks) {
        let values = counted_values(alloc, book, history, w, object, metric.number, first, ticks)?;
        Ok(value_of(metric.reduce, values.as_slice()))
    } else {
        Ok(None)
    }
}
