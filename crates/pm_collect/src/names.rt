//! The names of the files that are held, and of those that are wanted.
ghost use Rattle.std.specs.Prelude.{◌≡◌, ◌≤◌, ◌<◌, ◌+◌, [], ◌∷◌, true, false, ℕ, List, Err, OnOk, OnErr, None, Some, MatchOption, IfOk, IfErr, length, slice_get};
ghost use Rattle.std.specs.Map.{keys_of};
ghost use Rattle.std.specs.List.Sorted.{IsStrictlySortedBy};
ghost use Rattle.std.specs.Cmp.Lexicographic.{slice_cmp};
ghost use Rattle.std.specs.Ordering.{nat_cmp};
ghost use Rattle.pm_collect.specs.Maps.{has, place_of, HasSame, HasSamePlaces, HasMore, HasOneMore, HasPlace};

use crate::CollectError;
use crate::reading::{files_in_listing, name_in_notice};
use pm_notice::FileInfo;
use std::alloc::Global;
use std::collections::BTreeMap;
use std::collections::btree_map::Iter;

/// Where a held file lies.
#[derive(Clone, Copy, Debug, PartialEq, Eq)]
pub struct Place {
    /// Its offset in the store, in bytes.
    pub offset: u64,
    /// Its length, in bytes.
    pub size: u64,
}

/// The most files that are held. A store has room for fewer.
const MOST_FILES: usize = 4294967295;

/// The names of the files that are held, each with its place, and of those that are wanted.
#[derive(Drop)]
pub struct Names {
    alloc: Global,
    held: BTreeMap<Vec<u8>, Place>,
    wanted: BTreeMap<Vec<u8>, ()>,
    ghost few: { length held.entries ≤ 4294967295 },
}

impl Names {
    ghost use Rattle.pm_collect.specs.Call.{Dropped, Kept};
    ghost use Rattle.pm_collect.specs.Told.{told_by_notice, told_by_listing};
    ghost use Rattle.pm_collect.specs.Names.{names_of, IsAfter, Makes, MakesTold, Stays, Wants, IsFirst};
    ghost use Rattle.pm_collect.specs.Places.{rows_of, IsEntryAt};

    /// No name is held, and none is wanted.
    pub fn new(alloc: Global) -> Names
        ensures names { IsAfter [] [] result }
        ensures empty { (name : List ℕ) → place_of result.held name ≡ None }
    {
        Names {
            alloc,
            held: BTreeMap::new(alloc),
            wanted: BTreeMap::new(alloc),
        }
    }

    /// How many names are held.
    pub fn count(&self) -> u32
        ensures { result ≡ length (rows_of self.now) }
    {
        self.held.len() as u32
    }

    /// The names that are held, each with its place, in byte order.
    pub fn held(&self) -> Iter<'_, Vec<u8>, Place>
        ensures entries { result ≡ self.now.held.entries }
        ensures rising { IsStrictlySortedBy (slice_cmp nat_cmp) (keys_of (rows_of self.now)) }
    {
        self.held.iter()
    }

    /// The name at this place in byte order, from 0, and where its file lies.
    pub fn at(&self, place: u32) -> (&[u8], Place)
        requires { place < length (rows_of self.now) }
        ensures entry { IsEntryAt self.now place result.0.now result.1 }
        ensures rising { IsStrictlySortedBy (slice_cmp nat_cmp) (keys_of (rows_of self.now)) }
    {
        let mut rest = self.held.iter();
        for _before in 0..place {
            let _ = rest.next();
        }
        match rest.next() {
            Some((name, place)) => (name.as_slice(), *place),
            None => unreachable!(),
        }
    }

    /// Whether the file of this name is held.
    pub fn holds(&self, name: &[u8]) -> bool
        ensures { result ≡ has self.now.held name.now }
    {
        self.held.contains_key(name)
    }

    /// Whether this name is wanted.
    pub fn wants(&self, name: &[u8]) -> bool
        ensures { result ≡ has self.now.wanted name.now }
    {
        self.wanted.contains_key(name)
    }

    /// The first wanted name in byte order.
    pub fn next_fetch(&self) -> Option<&[u8]>
        ensures { MatchOption result ((name : List ℕ) → has self.now.wanted name ≡ false) (λ name. IsFirst self.now name.now) }
    {
        match self.wanted.first_key_value() {
            Some((name, _)) => Some(name.as_slice()),
            None => None,
        }
    }

    /// Reads a notice: its file is wanted, unless it is held. `C1` where it is no notice.
    pub fn notice(&mut self, body: &[u8]) -> Result<(), CollectError>
        ensures told { OnOk result (MakesTold (told_by_notice body.now) self.old self.new) }
        ensures refused { result ≡ Err CollectError.C1 → told_by_notice body.now ≡ None }
        ensures unchanged { OnErr result (Stays self.old self.new) }
        ensures held { HasSamePlaces self.old.held self.new.held }
    {
        match name_in_notice(self.alloc, body)? {
            Some(name) => self.want(name),
            None => Ok(()),
        }
    }

    /// Drops a wanted name, and answers whether it was wanted.
    pub fn gone(&mut self, name: &[u8]) -> bool
        ensures wanted { result ≡ has self.old.wanted name.now }
        ensures dropped { Makes (Dropped name.now) self.old self.new }
        ensures held { HasSamePlaces self.old.held self.new.held }
    {
        self.wanted.remove(name).is_some()
    }

    /// Reads a listing: each of its files is wanted, unless it is held. `C2` where it is no listing.
    pub fn listing(&mut self, body: &[u8]) -> Result<(), CollectError>
        ensures told { OnOk result (MakesTold (told_by_listing body.now) self.old self.new) }
        ensures refused { result ≡ Err CollectError.C2 → told_by_listing body.now ≡ None }
        ensures unchanged { OnErr result (Stays self.old self.new) }
        ensures held { HasSamePlaces self.old.held self.new.held }
    {
        let files = files_in_listing(self.alloc, body)?;
        self.want_each(&files)
    }

    /// Holds the file of this name, which is no longer wanted. For want of memory nothing changes.
    pub fn keep(&mut self, name: &[u8], place: Place) -> Result<(), CollectError>
        ensures kept { OnOk result (Makes (Kept name.now) self.old self.new) }
        ensures held { OnOk result (HasOneMore name.now self.old.held self.new.held) }
        ensures placed { OnOk result (HasPlace name.now place self.old.held self.new.held) }
        ensures wanted { OnOk result ((n : List ℕ) → has self.old.wanted n ≡ false → has self.new.wanted n ≡ false) }
        ensures unchanged { OnErr result (Stays self.old self.new) }
        ensures no_other { OnErr result (result ≡ Err CollectError.Memory) }
    {
        if self.held.len() >= MOST_FILES {
            return Err(CollectError::Memory);
        }
        add_held(self.alloc, &mut self.held, name, place)?;
        self.wanted.remove(name);
        Ok(())
    }

    // Wants the name, unless it is held.
    fn want(&mut self, name: Vec<u8>) -> Result<(), CollectError>
        ensures wants { OnOk result (Wants (name.items ∷ []) self.old self.new) }
        ensures unchanged { OnErr result (Stays self.old self.new) }
        ensures no_other { OnErr result (result ≡ Err CollectError.Memory) }
    {
        add_unless_held(&mut self.wanted, &self.held, name)
    }

    // Wants these files, as far as they aren't held. For want of memory none is wanted that wasn't.
    fn want_each(&mut self, files: &[FileInfo]) -> Result<(), CollectError>
        ensures wants { OnOk result (Wants (names_of files.now) self.old self.new) }
        ensures unchanged { OnErr result (Stays self.old self.new) }
        ensures no_other { OnErr result (result ≡ Err CollectError.Memory) }
    {
        let mut wanted = copy_of(&self.wanted)?;
        for file in files {
            add_file(self.alloc, &mut wanted, &self.held, file)?;
        }
        self.wanted = wanted;
        Ok(())
    }
}

// Adds the name with its place.
fn add_held(
    alloc: Global,
    held: &mut BTreeMap<Vec<u8>, Place>,
    name: &[u8],
    place: Place,
) -> Result<(), CollectError>
    ensures more { OnOk result (HasOneMore name.now held.old held.new) }
    ensures placed { OnOk result (HasPlace name.now place held.old held.new) }
    ensures longer { length held.new.entries ≤ length held.old.entries + 1 }
    ensures same { OnErr result (HasSamePlaces held.old held.new) }
    ensures no_other { OnErr result (result ≡ Err CollectError.Memory) }
{
    let Ok(key) = Vec::from_slice(alloc, name) else {
        return Err(CollectError::Memory);
    };
    match held.insert(key, place) {
        Ok(_) => Ok(()),
        Err(_) => Err(CollectError::Memory),
    }
}

// Adds a copy of the name, unless it is held.
fn add_file(
    alloc: Global,
    wanted: &mut BTreeMap<Vec<u8>, ()>,
    held: &BTreeMap<Vec<u8>, Place>,
    file: &FileInfo,
) -> Result<(), CollectError>
    ensures more { OnOk result (HasMore held.now (file.now.name ∷ []) wanted.old wanted.new) }
    ensures no_other { OnErr result (result ≡ Err CollectError.Memory) }
{
    let Ok(name) = Vec::from_slice(alloc, file.name.as_bytes()) else {
        return Err(CollectError::Memory);
    };
    add_unless_held(wanted, held, name)
}

// Adds the name, unless it is held.
fn add_unless_held(
    wanted: &mut BTreeMap<Vec<u8>, ()>,
    held: &BTreeMap<Vec<u8>, Place>,
    name: Vec<u8>,
) -> Result<(), CollectError>
    ensures more { OnOk result (HasMore held.now (name.items ∷ []) wanted.old wanted.new) }
    ensures same { OnErr result (HasSame wanted.old wanted.new) }
    ensures no_other { OnErr result (result ≡ Err CollectError.Memory) }
{
    if held.contains_key(name.as_slice()) {
        return Ok(());
    }
    match wanted.insert(name, ()) {
        Ok(_) => Ok(()),
        Err(_) => Err(CollectError::Memory),
    }
}

fn copy_of(names: &BTreeMap<Vec<u8>, ()>) -> Result<BTreeMap<Vec<u8>, ()>, CollectError>
    ensures same { IfOk result (λ copy. HasSame names.now copy) }
    ensures no_other { IfErr result (λ e. e ≡ CollectError.Memory) }
{
    match names.clone() {
        Ok(copy) => Ok(copy),
        Err(_) => Err(CollectError::Memory),
    }
}
