//! The files of a history.
ghost use Rattle.std.specs.Prelude.{◌≡◌, ◌+◌, ◌*◌, ◌<◌, ◌≤◌, ◌^◌, ◌++◌, map, length, Some, IfOk, OnOk, option_to_list};
ghost use Rattle.std.specs.List.{flat_map};
ghost use Rattle.pm_base.specs.Moment.{tick_of};
ghost use Rattle.pm_history.specs.declared.metric.Metric.{Metric};
ghost use Rattle.pm_history.specs.History.{history_of, last_moment};
ghost use Rattle.pm_history.specs.Terms.{reporting};
ghost use Rattle.pm_history.specs.Value.{measured_value};
ghost use Rattle.pm_history.specs.Files.{row_of, group_of, part_of, parts_of, report_of, is_due, file_of, file_at, files_at, files_of};
ghost use Rattle.pm_slow.specs.Book.{terms_in};
ghost use Rattle.pm_slow.specs.First.{IsFrom};

use crate::book::Book;
use crate::copy::copy;
use crate::counted::{is_suspect, some_counted};
use crate::history::{before, last_moment};
use crate::ids::ids_after;
use crate::making::Making;
use crate::report::{Group, Part, Report, Row};
use crate::standing::{Standing, standing_after};
use crate::terms::{Measured, Terms};
use crate::value::measured_value;
use pm_base::{Text, tick};
use pm_history::{Entry, Metric, Side};
use std::alloc::{AllocError, Global};

fn push_results(
    alloc: Global,
    book: &Book,
    history: &[Entry],
    w: &Making,
    first: u64,
    ticks: u64,
    object: u16,
    metrics: &[Metric],
    out: &mut Vec<Option<u64>>,
) -> Result<(), AllocError>
    requires few { length history.now < 2 ^ 32 }
    requires moments { 60 * (first + ticks) < 2 ^ 64 }
    ensures { OnOk result (out.new.items ≡ out.old.items ++ map (λ (m : Metric). measured_value (terms_in book.now) (history_of history.now) w.now object m first ticks) metrics.now) }
{
    match metrics {
        [] => Ok(()),
        [metric, rest @ ..] => {
            out.push(measured_value(alloc, book, history, w, object, *metric, first, ticks)?)?;
            push_results(alloc, book, history, w, first, ticks, object, rest, out)
        }
    }
}

fn row_of(
    alloc: Global,
    book: &Book,
    history: &[Entry],
    w: &Making,
    first: u64,
    ticks: u64,
    metrics: &[Metric],
    object: u16,
) -> Result<Row, AllocError>
    requires few { length history.now < 2 ^ 32 }
    requires moments { 60 * (first + ticks) < 2 ^ 64 }
    ensures { IfOk result (λ r. r ≡ row_of (terms_in book.now) (history_of history.now) w.now first ticks metrics.now object) }
{
    let mut results = Vec::new(alloc);
    push_results(
        alloc,
        book,
        history,
        w,
        first,
        ticks,
        object,
        metrics,
        &mut results,
    )?;
    let suspect = is_suspect(book, history, w, first, ticks);
    Ok(Row {
        object,
        results,
        suspect,
    })
}

fn push_rows(
    alloc: Global,
    book: &Book,
    history: &[Entry],
    w: &Making,
    first: u64,
    ticks: u64,
    metrics: &[Metric],
    objects: &[u16],
    out: &mut Vec<Row>,
) -> Result<(), AllocError>
    requires few { length history.now < 2 ^ 32 }
    requires moments { 60 * (first + ticks) < 2 ^ 64 }
    ensures { OnOk result (out.new.items ≡ out.old.items ++ map (row_of (terms_in book.now) (history_of history.now) w.now first ticks metrics.now) objects.now) }
{
    match objects {
        [] => Ok(()),
        [object, rest @ ..] => {
            out.push(row_of(alloc, book, history, w, first, ticks, metrics, *object)?)?;
            push_rows(alloc, book, history, w, first, ticks, metrics, rest, out)
        }
    }
}

fn numbers(alloc: Global, metrics: &[Metric]) -> Result<Vec<u8>, AllocError>
    ensures { IfOk result (λ v. v.items ≡ map (λ (m : Metric). m.number) metrics.now) }
{
    metrics.iter().map(|m| m.number).collect(alloc)
}

fn group_of(
    alloc: Global,
    book: &Book,
    history: &[Entry],
    w: &Making,
    first: u64,
    ticks: u64,
    measured: &Measured,
) -> Result<Group, AllocError>
    requires few { length history.now < 2 ^ 32 }
    requires moments { 60 * (first + ticks) < 2 ^ 64 }
    ensures { IfOk result (λ g. g ≡ group_of (terms_in book.now) (history_of history.now) w.now first ticks measured.now) }
{
    let mut rows = Vec::new(alloc);
    push_rows(
        alloc,
        book,
        history,
        w,
        first,
        ticks,
        measured.metrics(),
        measured.objects(),
        &mut rows,
    )?;
    let metrics = numbers(alloc, measured.metrics())?;
    Ok(Group {
        class: measured.class(),
        metrics,
        rows,
    })
}

fn push_groups(
    alloc: Global,
    book: &Book,
    history: &[Entry],
    w: &Making,
    first: u64,
    ticks: u64,
    measured: &[Measured],
    out: &mut Vec<Group>,
) -> Result<(), AllocError>
    requires few { length history.now < 2 ^ 32 }
    requires moments { 60 * (first + ticks) < 2 ^ 64 }
    ensures { OnOk result (out.new.items ≡ out.old.items ++ map (group_of (terms_in book.now) (history_of history.now) w.now first ticks) measured.now) }
{
    match measured {
        [] => Ok(()),
        [one, rest @ ..] => {
            out.push(group_of(alloc, book, history, w, first, ticks, one)?)?;
            push_groups(alloc, book, history, w, first, ticks, rest, out)
        }
    }
}

fn part_of(
    alloc: Global,
    book: &Book,
    history: &[Entry],
    w: &Making,
    terms: &Terms,
    first: u64,
) -> Result<Part, AllocError>
    requires few { length history.now < 2 ^ 32 }
    requires moments { 60 * (first + terms.now.granularity) < 2 ^ 64 }
    ensures { IfOk result (λ p. p ≡ part_of (terms_in book.now) (history_of history.now) w.now terms.now first) }
{
    let ticks = terms.granularity();
    let mut groups = Vec::new(alloc);
    push_groups(
        alloc,
        book,
        history,
        w,
        first,
        ticks,
        terms.measured(),
        &mut groups,
    )?;
    Ok(Part {
        begin: first,
        end: first + ticks,
        groups,
    })
}

fn parts_of(
    alloc: Global,
    book: &Book,
    history: &[Entry],
    w: &Making,
    terms: &Terms,
    first: u64,
) -> Result<Vec<Part>, AllocError>
    requires few { length history.now < 2 ^ 32 }
    requires moments { 60 * (first + reporting terms.now) < 2 ^ 64 }
    ensures { IfOk result (λ p. p.items ≡ parts_of (terms_in book.now) (history_of history.now) w.now terms.now first terms.now.parts) }
{
    let ticks = terms.granularity();
    let count = terms.parts();
    let mut parts = Vec::new(alloc);
    let mut at = first;
    for _k in 0..count {
        parts.push(part_of(alloc, book, history, w, terms, at)?)?;
        at += ticks;
    }
    Ok(parts)
}

fn is_due(book: &Book, history: &[Entry], w: &Making, terms: &Terms, end: u64) -> bool
    requires { 60 * end < 2 ^ 64 }
    ensures { result ≡ is_due (terms_in book.now) (history_of history.now) w.now terms.now end }
{
    let ticks = terms.reporting();
    ticks > 0
        && ticks <= end
        && end % ticks == 0
        && some_counted(book, history, w, end - ticks, ticks)
}

fn report_of(
    alloc: Global,
    book: &Book,
    history: &[Entry],
    w: &Making,
    terms: &Terms,
    end: u64,
) -> Result<Report, AllocError>
    requires few { length history.now < 2 ^ 32 }
    requires moments { 60 * end < 2 ^ 64 }
    requires room { reporting terms.now ≤ end }
    ensures { IfOk result (λ r. r ≡ report_of (terms_in book.now) (history_of history.now) w.now terms.now end) }
{
    let begin = end - terms.reporting();
    let parts = parts_of(alloc, book, history, w, terms, begin)?;
    Ok(Report {
        job: w.copied_id(alloc)?,
        begin,
        end,
        parts,
    })
}

fn file_of(
    alloc: Global,
    book: &Book,
    history: &[Entry],
    id: &Text,
    end: u64,
    standing: &Standing,
) -> Result<Option<Report>, AllocError>
    requires few { length history.now < 2 ^ 32 }
    requires moments { 60 * end < 2 ^ 64 }
    ensures { IfOk result (λ r. option_to_list r ≡ file_of (terms_in book.now) (history_of history.now) id.now end (Some standing.now)) }
{
    let w = standing.making(Side::Job, id);
    let terms = book.terms(Side::Job, standing.body().as_bytes());
    if is_due(book, history, &w, terms, end) {
        Ok(Some(report_of(alloc, book, history, &w, terms, end)?))
    } else {
        Ok(None)
    }
}

// The file of the job that stands under an id at this end.
fn file_at(
    alloc: Global,
    book: &Book,
    history: &[Entry],
    end: u64,
    id: &Text,
) -> Result<Option<Report>, AllocError>
    requires few { length history.now < 2 ^ 32 }
    requires moments { 60 * end < 2 ^ 64 }
    ensures { IfOk result (λ r. option_to_list r ≡ file_at (terms_in book.now) (history_of history.now) end id.now) }
{
    match standing_after(book, Side::Job, before(history, 60 * end), id) {
        None => Ok(None),
        Some(standing) => file_of(alloc, book, history, id, end, &standing),
    }
}

fn push_file(files: &mut Vec<Report>, file: Option<Report>) -> Result<(), AllocError>
    ensures { OnOk result (files.new.items ≡ files.old.items ++ option_to_list file) }
{
    if let Some(file) = file {
        files.push(file)?;
    }
    Ok(())
}

fn push_files_of(
    alloc: Global,
    book: &Book,
    history: &[Entry],
    end: u64,
    ids: &[Text],
    out: &mut Vec<Report>,
) -> Result<(), AllocError>
    requires few { length history.now < 2 ^ 32 }
    requires moments { 60 * end < 2 ^ 64 }
    ensures { OnOk result (out.new.items ≡ out.old.items ++ flat_map (file_at (terms_in book.now) (history_of history.now) end) ids.now) }
{
    match ids {
        [] => Ok(()),
        [id, rest @ ..] => {
            push_file(out, file_at(alloc, book, history, end, id)?)?;
            push_files_of(alloc, book, history, end, rest, out)
        }
    }
}

/// Appends the files of the periods that end with a tick, in byte order of id.
pub(crate) fn push_files_at(
    alloc: Global,
    book: &Book,
    history: &[Entry],
    end: u64,
    out: &mut Vec<Report>,
) -> Result<(), AllocError>
    requires few { length history.now < 2 ^ 32 }
    requires moments { 60 * end < 2 ^ 64 }
    ensures { OnOk result (out.new.items ≡ out.old.items ++ files_at (terms_in book.now) (history_of history.now) end) }
{
    let ids = ids_after(alloc, Side::Job, before(history, 60 * end))?;
    push_files_of(alloc, book, history, end, ids.as_slice(), out)
}

fn lesser(one: u64, other: u64) -> u64
    ensures one { result ≤ one }
    ensures other { result ≤ other }
{
    one.min(other)
}

/// The least moment of all entries, and 0 of none. No period that something follows from ends at or before its tick.
pub(crate) fn least_moment(history: &[Entry]) -> u64
    ensures least { IsFrom result (history_of history.now) }
    ensures within { result ≤ last_moment (history_of history.now) }
{
    let mut least = last_moment(history);
    for entry in history {
        least = lesser(least, entry.moment());
    }
    least
}

/// All files, in order of their ends, and at one end in byte order of id.
pub fn files(alloc: Global, book: &Book, history: &[Entry]) -> Result<Vec<Report>, AllocError>
    requires { length history.now < 2 ^ 32 }
    ensures { IfOk result (λ files. files.items ≡ files_of (terms_in book.now) (history_of history.now)) }
{
    let first = tick(least_moment(history));
    let last = tick(last_moment(history));
    let mut files = Vec::new(alloc);
    for k in 0..last - first {
        push_files_at(alloc, book, history, first + k + 1, &mut files)?;
    }
    Ok(files)
}
