//! From the bytes of an input to the lines of its notices, by the definitions or by the product, or of its items.
use crate::asking::nothing;
use crate::closing::Closing;
use crate::inventory::Reading;
use crate::items::item_lines;
use crate::line::{Said, read_line};
use crate::stop::Stop;
use pm_history::Entry;
use pm_inventory::Inventory;
use pm_slow::{Book, notices, print_notices};
use std::alloc::{AllocError, Global};

/// The most entries of an input.
pub(crate) const MAX_ENTRIES: usize = 1_000_000;

/// What is printed.
#[derive(Clone, Copy)]
pub(crate) enum Asked {
    /// Those that the definitions give.
    Notices,
    /// Those that the crates of the product give.
    Closed,
    Items,
}

// The history so far, and what its bodies ask for.
#[derive(Drop)]
pub(crate) struct Past {
    inventory: Inventory,
    book: Book,
    entries: Vec<Entry>,
    last: Option<u64>,
}

impl Past {
    fn new(alloc: Global, inventory: Inventory) -> Past {
        Past {
            inventory,
            book: Book {
                meanings: Vec::new(alloc),
                otherwise: nothing(alloc),
            },
            entries: Vec::new(alloc),
            last: None,
        }
    }

    fn take(&mut self, number: u64, said: Said) -> Result<(), Stop> {
        if !said.entry.may_follow(self.last) || self.entries.len() >= MAX_ENTRIES {
            return Err(Stop::Line(number));
        }
        self.last = Some(said.entry.moment());
        self.add(said)?;
        Ok(())
    }

    fn add(&mut self, said: Said) -> Result<(), AllocError> {
        let Said { entry, meaning } = said;
        if let Some(meaning) = meaning {
            self.book.meanings.push(meaning)?;
        }
        self.entries.push(entry)?;
        Ok(())
    }

    // The lines of the notices, by the definitions.
    fn notice_lines(&self, alloc: Global) -> Result<Vec<u8>, Stop> {
        if self.entries.len() > MAX_ENTRIES {
            return Err(Stop::Memory);
        }
        let notices = notices(alloc, &self.book, self.entries.as_slice())?;
        Ok(print_notices(alloc, notices.as_slice())?)
    }

    // What the product makes of it, and the history that it was: a request on a job or a monitor that was refused, or
    // changed nothing, is no entry.
    fn closed(self, alloc: Global) -> Result<(Closing, Past), Stop> {
        let Past {
            inventory,
            book,
            entries,
            last,
        } = self;
        let mut closing = Closing::new(alloc, &inventory)?;
        let mut kept = Vec::new(alloc);
        for entry in entries {
            if closing.take(alloc, &inventory, &entry)? {
                push(&mut kept, entry)?;
            }
        }
        let past = Past {
            inventory,
            book,
            entries: kept,
            last,
        };
        Ok((closing, past))
    }
}

fn take(alloc: Global, past: &mut Past, number: u64, line: &[u8]) -> Result<(), Stop> {
    match read_line(alloc, &past.inventory, line)? {
        Some(said) => past.take(number, said),
        None => Err(Stop::Line(number)),
    }
}

fn push(entries: &mut Vec<Entry>, entry: Entry) -> Result<(), AllocError> {
    entries.push(entry)?;
    Ok(())
}

// The history that an input says, or the first line that is refused.
fn read(alloc: Global, input: &[u8]) -> Result<Past, Stop> {
    let mut reading = Reading::new(alloc);
    let mut past: Option<Past> = None;
    let mut number = 0u64;
    let input = input.strip_suffix(b"\n").unwrap_or(input);
    for line in input.split(|b| *b == b'\n') {
        number = number.saturating_add(1);
        match &mut past {
            Some(past) => take(alloc, past, number, line)?,
            None if line == b"end".as_slice() => {
                let read = std::mem::replace(&mut reading, Reading::new(alloc));
                past = Some(Past::new(alloc, read.finish(alloc, number)?));
            }
            None => reading.take(number, line)?,
        }
    }
    past.ok_or(Stop::Line(number.saturating_add(1)))
}

/// The lines that are asked for, or the first line that is refused.
pub(crate) fn told(alloc: Global, asked: Asked, input: &[u8]) -> Result<Vec<u8>, Stop> {
    let past = read(alloc, input)?;
    match asked {
        Asked::Notices => past.notice_lines(alloc),
        Asked::Closed => {
            let (closing, _) = past.closed(alloc)?;
            closing.lines(alloc)
        }
        Asked::Items => item_lines(alloc, &past.inventory, past.entries.as_slice()),
    }
}

/// What the product makes of an input, and beside it the lines of the notices of its history by the definitions.
#[cfg(test)]
pub(crate) fn beside(alloc: Global, input: &[u8]) -> Result<(Closing, Vec<u8>), Stop> {
    let (closing, past) = read(alloc, input)?.closed(alloc)?;
    let lines = past.notice_lines(alloc)?;
    Ok((closing, lines))
}
