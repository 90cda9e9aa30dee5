//! What stands under an id.
ghost use Rattle.std.specs.Prelude.{◌≡◌, None};
ghost use Rattle.std.specs.Option.{option_map, is_some};
ghost use Rattle.std.specs.Str.{bytes_eq};
ghost use Rattle.pm_history.specs.Entry.{Made, change_of};
ghost use Rattle.pm_history.specs.History.{history_of};
ghost use Rattle.pm_history.specs.Standing.{stands, runs, moved, changed_by, standing_next, standing_after};
ghost use Rattle.pm_slow.specs.Book.{terms_in};

use crate::book::Book;
use crate::making::Making;
use pm_base::{Blob, Text};
use pm_history::{Entry, Side};
use std::marker::Model;

/// The place of its making, its body, its state, the moment of the last entry on it, and the moment of its making or, where it was set
/// to UNLOCKED since, of the last time that it was.
#[derive(Drop)]
pub struct Standing<'a> {
    pub place: u64,
    pub body: &'a Blob,
    pub unlocked: bool,
    pub changed: u64,
    pub armed: u64,
}

impl<'a> Model for Standing<'a> {
    ghost use Rattle.pm_history.specs.Standing.{Standing};

    ghost Value = { Standing };

    ghost view = { λ s. record { place = s.place; body = s.body.now; unlocked = s.unlocked; changed = s.changed; armed = s.armed } };
}

impl<'a> Standing<'a> {
    fn moved(&self, moment: u64, unlocked: bool) -> Standing<'a>
        ensures { result ≡ moved moment unlocked self.now }
    {
        Standing {
            place: self.place,
            body: self.body,
            unlocked,
            changed: moment,
            armed: if unlocked { moment } else { self.armed },
        }
    }

    fn copy(&self) -> Standing<'a>
        ensures { result ≡ self.now }
    {
        Standing {
            place: self.place,
            body: self.body,
            unlocked: self.unlocked,
            changed: self.changed,
            armed: self.armed,
        }
    }

    /// The making that stands.
    pub fn making(&self, side: Side, id: &'a Text) -> Making<'a>
        ensures { result ≡ record { side = side; id = id.now; place = self.now.place } }
    {
        Making {
            side,
            id,
            place: self.place,
        }
    }

    /// The body that it was made with.
    pub fn body(&self) -> &'a Blob
        ensures { result.now ≡ self.now.body }
    {
        self.body
    }

    /// The moment of its making or, where it was set to UNLOCKED since, of the last time that it was.
    pub fn armed(&self) -> u64
        ensures { result ≡ self.now.armed }
    {
        self.armed
    }
}

fn same(one: &Text, other: &Text) -> bool
    ensures { result ≡ bytes_eq one.now other.now }
{
    one.as_bytes() == other.as_bytes()
}

fn copied<'a>(old: &Option<Standing<'a>>) -> Option<Standing<'a>>
    ensures { result ≡ old.now }
{
    match old {
        Some(s) => Some(s.copy()),
        None => None,
    }
}

fn set<'a>(old: &Option<Standing<'a>>, moment: u64, unlocked: bool) -> Option<Standing<'a>>
    ensures { result ≡ option_map (moved moment unlocked) old.now }
{
    match old {
        Some(s) => Some(s.moved(moment, unlocked)),
        None => None,
    }
}

fn made<'a>(
    book: &Book,
    side: Side,
    place: u64,
    moment: u64,
    body: &'a Blob,
) -> Option<Standing<'a>>
    ensures { result ≡ changed_by (terms_in book.now) side place moment None (Made body.now) }
{
    let unlocked = book.terms(side, body.as_bytes()).unlocked();
    Some(Standing {
        place,
        body,
        unlocked,
        changed: moment,
        armed: moment,
    })
}

fn job_next<'a>(
    book: &Book,
    id: &Text,
    place: u64,
    old: &Option<Standing<'a>>,
    entry: &'a Entry,
) -> Option<Standing<'a>>
    ensures { result ≡ standing_next (terms_in book.now) Side.Job id.now place old.now entry.now }
{
    match entry {
        Entry::JobMade {
            moment,
            id: name,
            body,
        } => {
            if same(name, id) {
                made(book, Side::Job, place, *moment, body)
            } else {
                copied(old)
            }
        }
        Entry::JobState {
            moment,
            id: name,
            unlocked,
        } => {
            if same(name, id) {
                set(old, *moment, *unlocked)
            } else {
                copied(old)
            }
        }
        Entry::JobDeleted { id: name, .. } => { if same(name, id) { None } else { copied(old) } }
        _ => copied(old),
    }
}

fn monitor_next<'a>(
    book: &Book,
    id: &Text,
    place: u64,
    old: &Option<Standing<'a>>,
    entry: &'a Entry,
) -> Option<Standing<'a>>
    ensures { result ≡ standing_next (terms_in book.now) Side.Monitor id.now place old.now entry.now }
{
    match entry {
        Entry::MonitorMade {
            moment,
            id: name,
            body,
        } => {
            if same(name, id) {
                made(book, Side::Monitor, place, *moment, body)
            } else {
                copied(old)
            }
        }
        Entry::MonitorState {
            moment,
            id: name,
            unlocked,
        } => {
            if same(name, id) {
                set(old, *moment, *unlocked)
            } else {
                copied(old)
            }
        }
        Entry::MonitorDeleted { id: name, .. } => {
            if same(name, id) { None } else { copied(old) }
        }
        _ => copied(old),
    }
}

/// What stands under an id after the entry at a place, where `old` stood before it.
pub(crate) fn standing_next<'a>(
    book: &Book,
    side: Side,
    id: &Text,
    place: u64,
    old: &Option<Standing<'a>>,
    entry: &'a Entry,
) -> Option<Standing<'a>>
    ensures { result ≡ standing_next (terms_in book.now) side id.now place old.now entry.now }
{
    match side {
        Side::Job => job_next(book, id, place, old, entry),
        Side::Monitor => monitor_next(book, id, place, old, entry),
    }
}

/// What stands under an id of a side.
pub fn standing_after<'a>(
    book: &Book,
    side: Side,
    history: &'a [Entry],
    id: &Text,
) -> Option<Standing<'a>>
    ensures { result ≡ standing_after (terms_in book.now) side (history_of history.now) id.now }
{
    let mut standing = None;
    for (place, entry) in history.iter().enumerate() {
        standing = standing_next(book, side, id, place as u64, &standing, entry);
    }
    standing
}

/// Whether the making of this place stands.
pub(crate) fn stands(place: u64, standing: &Option<Standing>) -> bool
    ensures { result ≡ stands place standing.now }
{
    match standing {
        Some(s) => s.place == place,
        None => false,
    }
}

/// Whether it stands and is UNLOCKED.
pub(crate) fn runs(place: u64, standing: &Option<Standing>) -> bool
    ensures { result ≡ runs place standing.now }
{
    match standing {
        Some(s) => s.place == place && s.unlocked,
        None => false,
    }
}

/// Whether the entry makes, changes or deletes something under the id.
pub(crate) fn is_under(side: Side, id: &Text, entry: &Entry) -> bool
    ensures { result ≡ is_some (change_of side id.now entry.now) }
{
    match (side, entry) {
        (Side::Job, Entry::JobMade { id: name, .. })
        | (Side::Job, Entry::JobState { id: name, .. })
        | (Side::Job, Entry::JobDeleted { id: name, .. })
        | (Side::Monitor, Entry::MonitorMade { id: name, .. })
        | (Side::Monitor, Entry::MonitorState { id: name, .. })
        | (Side::Monitor, Entry::MonitorDeleted { id: name, .. }) => same(name, id),
        _ => false,
    }
}
