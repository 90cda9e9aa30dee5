//! The notices of a history.
ghost use Rattle.std.specs.Prelude.{◌≡◌, ◌+◌, ◌*◌, ◌<◌, ◌^◌, ◌++◌, map, length, IfOk, OnOk};
ghost use Rattle.pm_history.specs.History.{history_of};
ghost use Rattle.pm_history.specs.Notices.{FileReady, Crossing, notices_at, notices_of};
ghost use Rattle.pm_slow.specs.Book.{terms_in};
ghost use Rattle.pm_slow.specs.Seen.{notice_seen};

use crate::book::Book;
use crate::file::{least_moment, push_files_at};
use crate::history::last_moment;
use crate::report::Report;
use crate::watching::{Crossed, crossings_at};
use pm_base::tick;
use pm_history::Entry;
use std::alloc::{AllocError, Global};

/// A file that became ready, or a crossing.
#[derive(Drop)]
pub enum Notice {
    File(Report),
    Cross(Crossed),
}

fn push_files(files: Vec<Report>, out: &mut Vec<Notice>) -> Result<(), AllocError>
    ensures { OnOk result (map notice_seen out.new.items ≡ map notice_seen out.old.items ++ map FileReady files.items) }
{
    for file in files {
        out.push(Notice::File(file))?;
    }
    Ok(())
}

fn push_crossings(crossings: Vec<Crossed>, out: &mut Vec<Notice>) -> Result<(), AllocError>
    ensures { OnOk result (map notice_seen out.new.items ≡ map notice_seen out.old.items ++ map Crossing crossings.items) }
{
    for crossing in crossings {
        out.push(Notice::Cross(crossing))?;
    }
    Ok(())
}

// Appends the notices of the periods that end with a tick.
fn push_notices_at(
    alloc: Global,
    book: &Book,
    history: &[Entry],
    end: u64,
    out: &mut Vec<Notice>,
) -> Result<(), AllocError>
    requires few { length history.now < 2 ^ 32 }
    requires moments { 60 * end < 2 ^ 64 }
    ensures { OnOk result (map notice_seen out.new.items ≡ map notice_seen out.old.items ++ notices_at (terms_in book.now) (history_of history.now) end) }
{
    let mut files = Vec::new(alloc);
    push_files_at(alloc, book, history, end, &mut files)?;
    let crossings = crossings_at(alloc, book, history, end)?;
    push_files(files, out)?;
    push_crossings(crossings, out)
}

/// All notices, in their order. A notice's number is its place, from 0.
pub fn notices(alloc: Global, book: &Book, history: &[Entry]) -> Result<Vec<Notice>, AllocError>
    requires { length history.now < 2 ^ 32 }
    ensures { IfOk result (λ notices. map notice_seen notices.items ≡ notices_of (terms_in book.now) (history_of history.now)) }
{
    let first = tick(least_moment(history));
    let last = tick(last_moment(history));
    let mut notices = Vec::new(alloc);
    for k in 0..last - first {
        push_notices_at(alloc, book, history, first + k + 1, &mut notices)?;
    }
    Ok(notices)
}
