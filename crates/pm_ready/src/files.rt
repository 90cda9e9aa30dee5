//! The report files that are kept.
ghost use Rattle.std.specs.Prelude.{List, ◌≡◌, ◌≤◌, ◌++◌, [], map, length, IfOk, MatchOption, OnOk, vec_len, vec_capacity, bytes_eq, option_copied};
ghost use Rattle.std.specs.List.{filter, find};
ghost use Rattle.std.specs.Option.{option_map};
ghost use Rattle.pm_history.specs.declared.entry.Entry.{Entry};
ghost use Rattle.pm_history.specs.Entry.{moment_of};
ghost use Rattle.pm_history.specs.Files.{Report, files_of};
ghost use Rattle.pm_history.specs.History.{History, Start, ◌▷◌, last_moment};
ghost use Rattle.pm_inventory.specs.Inventory.{InventoryState};
ghost use Rattle.pm_asked.specs.Asked.{terms_of};
ghost use Rattle.pm_name.specs.FileName.{FileNameParts, IsFileName};
ghost use Rattle.pm_ready.specs.Files.{File, file_of, AreFilesOf};
ghost use Rattle.pm_ready.specs.Kept.{lasts, FilesStand, Serves};
ghost use Rattle.pm_ready.specs.Listing.{is_of_type, IsListing};

use crate::listing::listing_of;
use crate::range::between;
use crate::{FileQuery, ReadyFile};
use pm_base::Blob;
use pm_name::FileName;
use std::alloc::{AllocError, Global};
use std::marker::Model;

/// The seconds after it is ready at which a file expires.
const EXPIRY: u64 = 86_400;

/// The report files that are not expired, oldest first.
#[derive(Drop)]
pub struct ReadyFiles {
    files: Vec<ReadyFile>,
}

impl Model for ReadyFiles {
    ghost use Rattle.std.specs.Prelude.{◌-◌, map, vec_len, vec_capacity};
    ghost use Rattle.pm_ready.specs.Files.{file_of};
    ghost use Rattle.pm_ready.specs.Kept.{FilesState};

    ghost Value = { FilesState };

    ghost view = { λ f. record { files = map file_of f.files.items; room = vec_capacity f.files - vec_len f.files } };
}

fn lasts(file: &ReadyFile, moment: u64) -> bool
    ensures { result ≡ lasts moment (file_of file.now).ready }
{
    moment < file.info.ready + EXPIRY
}

// Those that are not expired.
fn keep(files: &mut Vec<ReadyFile>, moment: u64)
    ensures files { map file_of files.new.items ≡ filter (λ (f : File). lasts moment f.ready) (map file_of files.old.items) }
    ensures fewer { vec_len files.new ≤ vec_len files.old }
    ensures room { vec_capacity files.new ≡ vec_capacity files.old }
{
    files.retain(|file| lasts(file, moment));
}

fn is_same(a: &[u8], b: &[u8]) -> bool
    ensures { result ≡ bytes_eq a.now b.now }
{
    a == b
}

fn text_of<'a>(files: &'a [ReadyFile], name: &[u8]) -> Option<&'a [u8]>
    ensures { option_copied result ≡ option_map (λ (f : ReadyFile). f.text) (find (λ (f : ReadyFile). bytes_eq f.info.name name.now) files.now) }
{
    for file in files {
        if is_same(file.info.name.as_bytes(), name) {
            return Some(file.text.as_bytes());
        }
    }
    None
}

// When the file of this name is ready; nothing of a text that is no name.
fn end_of(alloc: Global, name: &[u8]) -> Result<Option<u64>, AllocError>
    ensures { IfOk result (λ end. MatchOption end ((n : FileNameParts) → IsFileName name.now n → ⊥) (λ moment. (n : FileNameParts) → IsFileName name.now n → n.end ≡ moment)) }
{
    match FileName::check(name) {
        Ok(()) => match FileName::read(alloc, name) {
            Ok(parts) => Ok(Some(parts.end())),
            Err(_) => Err(AllocError),
        },
        Err(_) => Ok(None),
    }
}

fn is_of_type(performance: Option<bool>) -> bool
    ensures { result ≡ is_of_type performance }
{
    performance.unwrap_or(true)
}

impl ReadyFiles {
    /// None. It takes no memory.
    pub fn new(alloc: Global) -> ReadyFiles
        ensures none { result.files ≡ [] }

        // They stand for a history before its first entry and after it.
        ensures stands { (inventory : InventoryState) → FilesStand inventory Start result.files }
        ensures first { (inventory : InventoryState) (e : Entry) → FilesStand inventory (Start ▷ e) result.files }
    {
        ReadyFiles {
            files: Vec::new(alloc),
        }
    }

    /// Takes the memory for so many more.
    pub fn reserve(&mut self, more: usize) -> Result<(), AllocError>
        ensures files { self.new.files ≡ self.old.files }
        ensures room { OnOk result (more ≤ self.new.room) }
    {
        self.files.reserve(more)
    }

    /// The history went on to this moment: what has expired goes, and the new ones come after the others. It takes no memory.
    pub fn step(&mut self, moment: u64, new: Vec<ReadyFile>)
        requires { length new.items ≤ self.old.room }
        ensures files { self.new.files ≡ filter (λ (f : File). lasts moment f.ready) (self.old.files ++ map file_of new.items) }

        // Files that stand for a history stand for it with an entry of this moment, where the new ones are those of the reports that it adds.
        ensures stands { (inventory : InventoryState) (h : History) (e : Entry) (added : List Report)
            → last_moment h ≤ moment → moment_of e ≡ moment
            → files_of (terms_of inventory) (h ▷ e) ≡ files_of (terms_of inventory) h ++ added → AreFilesOf inventory added (map file_of new.items)
            → FilesStand inventory h self.old.files → FilesStand inventory (h ▷ e) self.new.files }
    {
        self.renew(moment, new);
    }

    fn renew(&mut self, moment: u64, new: Vec<ReadyFile>)
        requires { length new.items ≤ self.old.room }
        ensures { self.new.files ≡ filter (λ (f : File). lasts moment f.ready) (self.old.files ++ map file_of new.items) }
    {
        let mut new = new;
        keep(&mut self.files, moment);
        keep(&mut new, moment);
        // There is room for them.
        let _ = self.files.append(&mut new);
    }

    /// The files, oldest first.
    pub fn as_slice(&self) -> &[ReadyFile]
        ensures { map file_of result.now ≡ self.now.files }
    {
        &self.files
    }

    /// The text of the file of this name.
    pub fn find(&self, alloc: Global, name: &[u8]) -> Result<Option<&[u8]>, AllocError>
        ensures serves { (inventory : InventoryState) (h : History) → FilesStand inventory h self.now.files → IfOk result (λ text. Serves inventory h name.now (option_copied text)) }
    {
        // A name says when its file was ready, and few are ready at once.
        let Some(end) = end_of(alloc, name)? else {
            return Ok(None);
        };
        Ok(text_of(between(&self.files, Some(end), Some(end)), name))
    }

    /// The listing of the files that a query shows.
    pub fn listing(&self, alloc: Global, query: &FileQuery) -> Result<Blob, AllocError>
        ensures listing { (inventory : InventoryState) (h : History) → FilesStand inventory h self.now.files → IfOk result (λ text. IsListing inventory h query.now text) }
    {
        if !is_of_type(query.performance) {
            return listing_of(alloc, &[]);
        }
        listing_of(alloc, between(&self.files, query.begin, query.end))
    }
}
