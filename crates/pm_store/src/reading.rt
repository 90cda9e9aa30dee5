//! The steps that the reading of an item is made of. None takes memory, and none takes a length that passes the bytes at hand.
ghost use Rattle.std.specs.Prelude.{◌≡◌, ◌==◌, ◌≤◌, length, if◌then◌else◌, IfSome};
ghost use Rattle.std.specs.Option.{option_map};
ghost use Rattle.pm_store.specs.Format.{first, first_flag, number16, number32, number64, short, long, whole};
ghost use Rattle.std.specs.Prelude.{map};
ghost use Rattle.std.specs.Int.{w64, from_be_bytes};
ghost use Rattle.pm_store.specs.Rows.{cell_in};
ghost use Rattle.pm_store.specs.Item.{made, moved, subscribed, opened, booked, head};

use crate::item::VERSION;
use crate::numbers::{number_in_2, number_in_4, number_in_8};
use crate::rows::{cell_rows, cursor_rows};
use pm_base::LAST_MOMENT;

pub(crate) fn byte(bytes: &[u8]) -> Option<(u8, &[u8])>
    ensures { option_map (λ x. (x.0, x.1.now)) result ≡ first bytes.now }
{
    match bytes {
        [] => None,
        [first, rest @ ..] => Some((*first, rest)),
    }
}

fn flag(bytes: &[u8]) -> Option<(bool, &[u8])>
    ensures { option_map (λ x. (x.0, x.1.now)) result ≡ first_flag bytes.now }
{
    match bytes {
        [0, rest @ ..] => Some((false, rest)),
        [1, rest @ ..] => Some((true, rest)),
        _ => None,
    }
}

pub(crate) fn number16(bytes: &[u8]) -> Option<(u16, &[u8])>
    ensures { option_map (λ x. (x.0, x.1.now)) result ≡ number16.read bytes.now }
{
    if bytes.len() < 2 {
        return None;
    }
    let (front, rest) = bytes.split_at(2);
    Some((number_in_2(front), rest))
}

fn number32(bytes: &[u8]) -> Option<(u32, &[u8])>
    ensures { option_map (λ x. (x.0, x.1.now)) result ≡ number32.read bytes.now }
{
    if bytes.len() < 4 {
        return None;
    }
    let (front, rest) = bytes.split_at(4);
    Some((number_in_4(front), rest))
}

pub(crate) fn number64(bytes: &[u8]) -> Option<(u64, &[u8])>
    ensures { option_map (λ x. (x.0, x.1.now)) result ≡ number64.read bytes.now }
{
    if bytes.len() < 8 {
        return None;
    }
    let (front, rest) = bytes.split_at(8);
    Some((number_in_8(front), rest))
}

fn short(bytes: &[u8]) -> Option<(&[u8], &[u8])>
    ensures value { option_map (λ x. (x.0.now, x.1.now)) result ≡ short.read bytes.now }
    ensures few { IfSome result (λ x. length x.0.now ≤ 255) }
{
    let (count, rest) = byte(bytes)?;
    let count = usize::from(count);
    if rest.len() < count {
        return None;
    }
    Some(rest.split_at(count))
}

fn long(bytes: &[u8]) -> Option<(&[u8], &[u8])>
    ensures { option_map (λ x. (x.0.now, x.1.now)) result ≡ long.read bytes.now }
{
    let (count, rest) = number32(bytes)?;
    let count = count as usize;
    if rest.len() < count {
        return None;
    }
    Some(rest.split_at(count))
}

// What the front is, where nothing comes after it.
fn alone<T: Drop>(front: T, rest: &[u8]) -> Option<T>
    ensures { result ≡ (if length rest.now == 0 then Some front else None) }
{
    if rest.is_empty() { Some(front) } else { None }
}

/// The kind and the moment.
pub(crate) fn head(bytes: &[u8]) -> Option<((u8, u64), &[u8])>
    ensures { option_map (λ x. (x.0, x.1.now)) result ≡ head.read bytes.now }
{
    let (kind, rest) = byte(bytes)?;
    let (moment, rest) = number64(rest)?;
    if moment > LAST_MOMENT {
        return None;
    }
    Some(((kind, moment), rest))
}

/// An id alone.
pub(crate) fn named(bytes: &[u8]) -> Option<&[u8]>
    ensures value { option_map (λ x. x.now) result ≡ whole short bytes.now }
    ensures few { IfSome result (λ x. length x.now ≤ 255) }
{
    let (id, rest) = short(bytes)?;
    alone(id, rest)
}

/// An id and a body.
pub(crate) fn made(bytes: &[u8]) -> Option<(&[u8], &[u8])>
    ensures value { option_map (λ x. (x.0.now, x.1.now)) result ≡ whole made bytes.now }
    ensures few { IfSome result (λ x. length x.0.now ≤ 255) }
{
    let (id, rest) = short(bytes)?;
    let (body, rest) = long(rest)?;
    alone((id, body), rest)
}

/// An id, and whether it is unlocked.
pub(crate) fn moved(bytes: &[u8]) -> Option<(&[u8], bool)>
    ensures value { option_map (λ x. (x.0.now, x.1)) result ≡ whole moved bytes.now }
    ensures few { IfSome result (λ x. length x.0.now ≤ 255) }
{
    let (id, rest) = short(bytes)?;
    let (unlocked, rest) = flag(rest)?;
    alone((id, unlocked), rest)
}

/// An id, and a port and a path.
pub(crate) fn subscribed(bytes: &[u8]) -> Option<(&[u8], (u16, &[u8]))>
    ensures value { option_map (λ x. (x.0.now, (x.1.0, x.1.1.now))) result ≡ whole subscribed bytes.now }
    ensures few { IfSome result (λ x. (length x.0.now ≤ 255) × (length x.1.1.now ≤ 255)) }
{
    let (id, rest) = short(bytes)?;
    let (port, rest) = number16(rest)?;
    let (path, rest) = short(rest)?;
    alone((id, (port, path)), rest)
}

/// The version, and an inventory's text.
pub(crate) fn opened(bytes: &[u8]) -> Option<(u8, &[u8])>
    ensures { option_map (λ x. (x.0, x.1.now)) result ≡ whole opened bytes.now }
{
    let (version, rest) = byte(bytes)?;
    if version != VERSION {
        return None;
    }
    let (inventory, rest) = long(rest)?;
    alone((version, inventory), rest)
}

/// What a Booked says after its moment: cells and cursors are rows of bytes.
#[derive(Clone, Copy)]
pub(crate) struct BookedBytes<'a> {
    pub(crate) tick: u64,
    pub(crate) cells: &'a [[u8; 22]],
    pub(crate) cursors: &'a [[u8; 8]],
}

/// A tick, cells and cursors.
pub(crate) fn booked(bytes: &[u8]) -> Option<BookedBytes<'_>>
    ensures { option_map (λ b. (b.tick, (map cell_in b.cells.now, map (from_be_bytes w64) b.cursors.now))) result ≡ whole booked bytes.now }
{
    let (tick, rest) = number64(bytes)?;
    let (cells, rest) = cell_rows(rest)?;
    let (cursors, rest) = cursor_rows(rest)?;
    if !rest.is_empty() {
        return None;
    }
    Some(BookedBytes {
        tick,
        cells,
        cursors,
    })
}
