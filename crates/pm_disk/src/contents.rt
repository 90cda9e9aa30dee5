//! The contents of the two areas of a disk in memory, in room that was taken before.
ghost use Rattle.std.specs.Prelude.{◌≡◌, ◌≤◌, ◌+◌, ◌++◌, ℕ, [], IfOk, length, take, drop, vec_capacity};
ghost use Rattle.pm_disk.specs.Area.{overwritten};
ghost use Rattle.pm_disk.specs.Moments.{other};

use crate::Area;
use std::alloc::{AllocError, Global};

#[derive(Drop)]
pub struct Contents {
    pub room: usize,
    pub first: Vec<u8>,
    pub second: Vec<u8>,
    pub ghost first_room: { room ≤ vec_capacity first },
    pub ghost second_room: { room ≤ vec_capacity second },
}

impl Contents {
    ghost use Rattle.pm_disk.specs.declared.area.Area.{Area};
    ghost use Rattle.pm_disk.specs.Contents.{content};

    // Two empty areas with room for so many bytes in each.
    pub fn new(alloc: Global, room: usize) -> Result<Contents, AllocError>
        ensures empty { IfOk result (λ contents. (area : Area) → content contents area ≡ []) }
        ensures room { IfOk result (λ contents. contents.room ≡ room) }
    {
        Ok(Contents {
            room,
            first: Vec::with_capacity(alloc, room)?,
            second: Vec::with_capacity(alloc, room)?,
        })
    }

    pub fn bytes(&self, area: Area) -> &[u8]
        ensures { result.now ≡ content self.now area }
    {
        match area {
            Area::First => &self.first,
            Area::Second => &self.second,
        }
    }

    pub fn write_at(&mut self, area: Area, at: usize, bytes: &[u8])
        requires inside { at ≤ length (content self.old area) }
        requires fits { at + length bytes.now ≤ self.old.room }
        ensures this { content self.new area ≡ overwritten (content self.old area) at bytes.now }
        ensures that { content self.new (other area) ≡ content self.old (other area) }
        ensures room { self.new.room ≡ self.old.room }
    {
        match area {
            Area::First => overwrite(&mut self.first, at, bytes),
            Area::Second => overwrite(&mut self.second, at, bytes),
        }
    }

    pub fn cut(&mut self, area: Area, to: usize)
        ensures this { content self.new area ≡ take to (content self.old area) }
        ensures that { content self.new (other area) ≡ content self.old (other area) }
        ensures room { self.new.room ≡ self.old.room }
    {
        match area {
            Area::First => self.first.truncate(to),
            Area::Second => self.second.truncate(to),
        }
    }
}

// Writes over the bytes and past their end, into room that is there.
fn overwrite(content: &mut Vec<u8>, at: usize, bytes: &[u8])
    requires inside { at ≤ length content.old.items }
    requires fits { at + length bytes.now ≤ vec_capacity content.old }
    ensures written { content.new.items ≡ overwritten content.old.items at bytes.now }
    ensures room { vec_capacity content.old ≤ vec_capacity content.new }
{
    let inside = bytes.len().min(content.len() - at);
    replace(content, at, &bytes[..inside]);
    append(content, &bytes[inside..]);
}

// Adds the bytes where there is room for them.
pub fn append(content: &mut Vec<u8>, bytes: &[u8])
    requires { length content.old.items + length bytes.now ≤ vec_capacity content.old }
    ensures appended { content.new.items ≡ content.old.items ++ bytes.now }
    ensures room { vec_capacity content.old ≤ vec_capacity content.new }
{
    match content.extend_from_slice(bytes) {
        Ok(()) => {}
        Err(_) => unreachable!(),
    }
}

fn replace(content: &mut [u8], at: usize, bytes: &[u8])
    requires { at + length bytes.now ≤ length content.old }
    ensures { content.new ≡ overwritten content.old at bytes.now }
{
    let end = at + bytes.len();
    content[at..end].copy_from_slice(bytes);
}
