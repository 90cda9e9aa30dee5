//! The items of a history, and what is kept of it.
ghost use Rattle.std.specs.Prelude.{◌≡◌, ◌++◌, map, IfOk, OnOk, option_to_list};
ghost use Rattle.std.specs.Option.{option_map};
ghost use Rattle.pm_history.specs.History.{history_of};
ghost use Rattle.pm_items.specs.Items.{is_later, item_of, items_of, kept};
ghost use Rattle.pm_slow.specs.Items.{item_seen};

use crate::history::{last_moment, pick};
use pm_base::tick;
use pm_history::Entry;
use std::alloc::{AllocError, Global};

/// An item: a Boot; a Now in a later tick, with the tick that it takes and the entries before it, whose cells it has; or a change.
#[derive(Clone, Copy)]
pub enum Item<'a> {
    Opened {
        moment: u64,
    },
    Booked {
        moment: u64,
        tick: u64,
        before: &'a [Entry],
    },
    Changed {
        entry: &'a Entry,
    },
}

pub(crate) fn is_later(before: &[Entry], moment: u64) -> bool
    ensures { result ≡ is_later (history_of before.now) moment }
{
    match before {
        [] => true,
        [.., last] => tick(last.moment()) < tick(moment),
    }
}

// The item of an entry, if it has one.
fn item_of<'a>(before: &'a [Entry], entry: &'a Entry) -> Option<Item<'a>>
    ensures { option_map item_seen result ≡ item_of (history_of before.now) entry.now }
{
    match entry {
        Entry::Boot { moment } => Some(Item::Opened { moment: *moment }),
        Entry::Now { moment } => {
            if is_later(before, *moment) {
                Some(Item::Booked {
                    moment: *moment,
                    tick: tick(last_moment(before)),
                    before,
                })
            } else {
                None
            }
        }
        Entry::Event { .. } => None,
        _ => Some(Item::Changed { entry }),
    }
}

fn push<'a>(items: &mut Vec<Item<'a>>, item: Option<Item<'a>>) -> Result<(), AllocError>
    ensures { OnOk result (map item_seen items.new.items ≡ map item_seen items.old.items ++ option_to_list (option_map item_seen item.entry)) }
{
    if let Some(item) = item {
        items.push(item)?;
    }
    Ok(())
}

/// The items, in order.
pub fn items(alloc: Global, history: &[Entry]) -> Result<Vec<Item<'_>>, AllocError>
    ensures { IfOk result (λ items. map item_seen items.items ≡ items_of (history_of history.now)) }
{
    let mut items = Vec::new(alloc);
    for (place, entry) in history.iter().enumerate() {
        push(&mut items, item_of(&history[..place], entry))?;
    }
    Ok(items)
}

/// The entries up to the last that has an item.
pub fn kept(history: &[Entry]) -> &[Entry]
    ensures { history_of result.now ≡ kept (history_of history.now) }
{
    let mut count = 0;
    for (place, entry) in history.iter().enumerate() {
        let has = item_of(&history[..place], entry).is_some();
        count = pick(has, place + 1, count);
    }
    &history[..count]
}
