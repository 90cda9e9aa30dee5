//! A collector with its store: the held files in the first area of a disk.
ghost use Rattle.std.specs.Prelude.{◌≡◌, ◌≤◌, ◌<◌, ◌+◌, ◌++◌, ◌∷◌, ◌^◌, [], ℕ, List, length, drop, slice_get, true, false, OnOk, OnErr, Ok, Err, Some, IfOk, IfErr, ◌⊎◌, None, MatchOption};
ghost use Rattle.pm_outside.specs.Causes.{faults_after};
ghost use Rattle.pm_disk.specs.declared.area.Area.TheVariants.{First};
ghost use Rattle.pm_disk.specs.Moments.{DiskState, Throughout};
ghost use Rattle.pm_journal.specs.Journal.{area_of, limit_of};
ghost use Rattle.pm_journal.specs.Journal as journal;
ghost use Rattle.pm_journal.specs.Lists.{HasEither};
ghost use Rattle.pm_journal.specs.Opening.{IsBegun};
ghost use Rattle.pm_journal.specs.Reading.{IsClosedGate};
ghost use Rattle.pm_collect.specs.declared.collector.TheConstants.{MOST_BYTES};
ghost use Rattle.pm_journal.specs.Items.{HasItems};
ghost use Rattle.pm_collect.specs.Errors.{IsErrorOf};
ghost use Rattle.pm_collect.specs.Call.{Dropped, Kept};
ghost use Rattle.pm_collect.specs.Told.{told_by_notice, told_by_listing};
ghost use Rattle.pm_collect.specs.Maps.{has};
ghost use Rattle.pm_collect.specs.Names.{Makes, MakesTold, Stays, IsFirst};
ghost use Rattle.pm_collect.specs.Stored.{HeldFile, IsReportOf, item_of};
ghost use Rattle.pm_collect.specs.Places.{item_room, file_offset, rows_of, AreRows, text_in};

use crate::item::{item_bytes, split_item};
use crate::report::check_report;
use crate::{CollectError, Names, Place};
use pm_base::Blob;
use pm_disk::{Area, Disk};
use pm_journal::{Item, Journal, JournalError};
use pm_outside::Failed;
use std::alloc::Global;
use std::collections::btree_map::Iter;

/// The most bytes that a store has.
pub const MOST_BYTES: u64 = 4294967296;

// The bytes of an item, with the gate and the length before it, other than its name and its file.
const ITEM_BYTES: u64 = 11;

/// A collector of report files. After a fault of the disk it is spent, and its store is to be opened again.
#[derive(Drop)]
pub struct Collector {
    alloc: Global,
    journal: Journal,
    names: Names,
    ghost area: { area_of journal ≡ First },
    ghost limit: { limit_of journal ≡ MOST_BYTES },
}

impl Collector {
    ghost use Rattle.pm_collect.specs.Collector.{length_of, IsReady, IsUsable, IsTied, Holds, EachHas, Reads, TakesNext, Takes, IsOpened};
    ghost use Rattle.pm_collect.specs.Opening.{RefusesToOpen, RefusesNext, RefusesItem};
    ghost use Rattle.pm_collect.specs.Refusals.{is_fault, RefusesFile};

    /// Opens the store in the first area of a disk and reads which files it holds. None is wanted then.
    pub fn open<D: Disk>(alloc: Global, disk: &mut D) -> Result<Collector, CollectError>
        ensures ready { IfOk result IsReady }
        ensures tied { D.IsTold → IfOk result (λ c. IsTied c (D.told disk.new).now) }

        // The files are those of the list that the area had.
        ensures holds { D.IsTold → IfOk result (IsOpened (D.told disk.old).now (D.told disk.new).now) }

        // At every moment of the call each image has files that some image had at the start.
        ensures any_moment { D.IsTold → (a b : List HeldFile) → EachHas a b (D.told disk.old).now → Throughout (EachHas a b) (D.told disk.old) (D.told disk.new) }

        ensures refused { IfErr result (RefusesToOpen D.IsTold (D.told disk.old) (D.told disk.new)) }
        ensures faults { D.faults disk.new ≡ faults_after (is_fault result) (D.faults disk.old) }
    {
        let mut collector = Collector::begin(alloc, disk)?;
        for _turn in 0..u64::MAX {
            if !collector.next(disk)? {
                return Ok(collector);
            }
        }
        Err(CollectError::Memory)
    }

    /// Holds a wanted file: the report of this name. `C4` where it isn't wanted, `C3` where it is no report or one of another
    /// name. It counts once the call has answered Ok, whatever happens after it.
    pub fn file<D: Disk>(
        &mut self,
        disk: &mut D,
        name: &[u8],
        text: &[u8],
    ) -> Result<(), CollectError>
        requires ready { IsReady self.old }
        requires tied { D.IsTold → IsTied self.old (D.told disk.old).now }

        ensures kept { D.IsTold → (files : List HeldFile) → Holds self.old (D.told disk.old).now files
            → OnOk result (Holds self.new (D.told disk.new).now (files ++ record { name = name.now; text = text.now } ∷ [])) }
        ensures made { OnOk result (Makes (Kept name.now) self.old.names self.new.names) }
        ensures ready { OnOk result (IsReady self.new) }
        ensures tied { D.IsTold → OnOk result (IsTied self.new (D.told disk.new).now) }

        // At every moment of the call each image has the files from before it, or those with this one.
        ensures any_moment { D.IsTold → (files : List HeldFile) → Holds self.old (D.told disk.old).now files
            → Throughout (EachHas files (files ++ record { name = name.now; text = text.now } ∷ [])) (D.told disk.old) (D.told disk.new) }

        ensures refused { IfErr result (RefusesFile D.IsTold name.now text.now self.old self.new (D.told disk.old) (D.told disk.new)) }
        ensures faults { D.faults disk.new ≡ faults_after (is_fault result) (D.faults disk.old) }
    {
        if !self.names.wants(name) {
            return Err(CollectError::C4);
        }
        check_report(self.alloc, name, text)?;
        self.check_room(name, text)?;
        let Ok(item) = item_bytes(self.alloc, name, text) else {
            return Err(CollectError::Memory);
        };
        let place = place_of(self.journal.length() - 1, name, text);
        self.names.keep(name, place)?;
        self.append(disk, &item)
    }

    /// Reads a notice: its file is wanted, unless it is held. `C1` where it is no notice.
    pub fn notice(&mut self, body: &[u8]) -> Result<(), CollectError>
        ensures told { OnOk result (MakesTold (told_by_notice body.now) self.old.names self.new.names) }
        ensures refused { result ≡ Err CollectError.C1 → told_by_notice body.now ≡ None }
        ensures unchanged { OnErr result (Stays self.old.names self.new.names) }
        ensures store { self.new.journal ≡ self.old.journal }
        ensures stands { (disk : DiskState) (files : List HeldFile) → Holds self.old disk files → Holds self.new disk files }
    {
        self.names.notice(body)
    }

    /// Reads a listing: each of its files is wanted, unless it is held. `C2` where it is no listing.
    pub fn listing(&mut self, body: &[u8]) -> Result<(), CollectError>
        ensures told { OnOk result (MakesTold (told_by_listing body.now) self.old.names self.new.names) }
        ensures refused { result ≡ Err CollectError.C2 → told_by_listing body.now ≡ None }
        ensures unchanged { OnErr result (Stays self.old.names self.new.names) }
        ensures store { self.new.journal ≡ self.old.journal }
        ensures stands { (disk : DiskState) (files : List HeldFile) → Holds self.old disk files → Holds self.new disk files }
    {
        self.names.listing(body)
    }

    /// The first wanted name in byte order.
    pub fn next_fetch(&self) -> Option<&[u8]>
        ensures { MatchOption result ((name : List ℕ) → has self.now.names.wanted name ≡ false) (λ name. IsFirst self.now.names name.now) }
    {
        self.names.next_fetch()
    }

    /// Drops a wanted name, and answers whether it was wanted.
    pub fn gone(&mut self, name: &[u8]) -> bool
        ensures wanted { result ≡ has self.old.names.wanted name.now }
        ensures dropped { Makes (Dropped name.now) self.old.names self.new.names }
        ensures store { self.new.journal ≡ self.old.journal }
        ensures stands { (disk : DiskState) (files : List HeldFile) → Holds self.old disk files → Holds self.new disk files }
    {
        self.names.gone(name)
    }

    /// How many files are held.
    pub fn count(&self) -> u32
        ensures { result ≡ length (rows_of self.now.names) }
    {
        self.names.count()
    }

    /// The held files in byte order of their names, each with its name and its place.
    pub fn files(&self) -> Iter<'_, Vec<u8>, Place>
        ensures files { result ≡ self.now.names.held.entries }
        ensures rows { (disk : DiskState) (files : List HeldFile) → Holds self.now disk files → AreRows files (rows_of self.now.names) }
    {
        self.names.held()
    }

    /// The name and the size of a held file, in bytes. The place, from 0, is in byte order of the names.
    pub fn held(&self, place: u32) -> (&[u8], u64)
        requires { place < length (rows_of self.now.names) }
        ensures held { slice_get (rows_of self.now.names) place ≡ Some (result.0.now, result.1) }
        ensures rows { (disk : DiskState) (files : List HeldFile) → Holds self.now disk files → AreRows files (rows_of self.now.names) }
    {
        let (name, place) = self.names.at(place);
        (name, place.size)
    }

    /// Reads a held file back from the disk.
    pub fn load<D: Disk>(
        &self,
        alloc: Global,
        disk: &mut D,
        place: u32,
    ) -> Result<Blob, CollectError>
        requires inside { place < length (rows_of self.now.names) }
        requires holds { D.IsTold → (files : List HeldFile) × Holds self.now (D.told disk.old).now files }
        ensures loaded { D.IsTold → (files : List HeldFile) → Holds self.now (D.told disk.old).now files
            → IfOk result (λ text. (name : List ℕ) × (slice_get (rows_of self.now.names) place ≡ Some (name, length text)) × (text_in files name ≡ Some text)) }
        ensures told { D.IsTold → D.told disk.new ≡ D.told disk.old }
        ensures refused { IfErr result (λ e. (e ≡ CollectError.StoreFault) ⊎ (e ≡ CollectError.Memory)) }
        ensures faults { D.faults disk.new ≡ faults_after (is_fault result) (D.faults disk.old) }
    {
        let (_, place) = self.names.at(place);
        let Ok(mut text) = vec![in alloc; 0; place.size as usize] else {
            return Err(CollectError::Memory);
        };
        match disk.read(Area::First, place.offset, &mut text) {
            Ok(()) => Ok(Blob::from_vec(text)),
            Err(Failed) => Err(CollectError::StoreFault),
        }
    }

    // Begins to read the store.
    fn begin<D: Disk>(alloc: Global, disk: &mut D) -> Result<Collector, CollectError>
        ensures usable { IfOk result IsUsable }
        ensures tied { D.IsTold → IfOk result (λ c. IsTied c (D.told disk.new).now) }
        ensures reads { D.IsTold → IfOk result (λ c. (items : List (List ℕ)) × HasItems (D.told disk.old).now.first.seen items × Reads c (D.told disk.new).now [] items) }
        ensures any_moment { D.IsTold → (a b : List HeldFile) → EachHas a b (D.told disk.old).now → Throughout (EachHas a b) (D.told disk.old) (D.told disk.new) }
        ensures begun { D.IsTold → IfOk result (λ c. IsBegun MOST_BYTES (D.told disk.old).now.first.seen (D.told disk.new).now.first) }
        ensures refused { IfErr result (RefusesToOpen D.IsTold (D.told disk.old) (D.told disk.new)) }
        ensures faults { D.faults disk.new ≡ faults_after (is_fault result) (D.faults disk.old) }
    {
        match Journal::open(alloc, disk, Area::First, MOST_BYTES) {
            Ok(journal) => Ok(Collector {
                alloc,
                journal,
                names: Names::new(alloc),
            }),
            Err(error) => Err(error_of(error)),
        }
    }

    // Takes the next file of the store, and answers whether there was one.
    fn next<D: Disk>(&mut self, disk: &mut D) -> Result<bool, CollectError>
        requires usable { IsUsable self.old }
        requires tied { D.IsTold → IsTied self.old (D.told disk.old).now }
        ensures next { D.IsTold → (files : List HeldFile) (left : List (List ℕ)) → Reads self.old (D.told disk.old).now files left
            → IfOk result (λ more. TakesNext more self.new (D.told disk.new).now files left) }
        ensures tied { D.IsTold → OnOk result (IsTied self.new (D.told disk.new).now) }
        ensures usable { OnOk result (IsUsable self.new) }
        ensures ready { result ≡ Ok false → IsReady self.new }
        ensures any_moment { D.IsTold → (a b : List HeldFile) → EachHas a b (D.told disk.old).now → Throughout (EachHas a b) (D.told disk.old) (D.told disk.new) }
        ensures seen { D.IsTold → result ≡ Ok true → (D.told disk.new).now.first ≡ (D.told disk.old).now.first }
        ensures ended { D.IsTold → result ≡ Ok false → IsClosedGate (drop (journal.gate_of self.old.journal) (D.told disk.old).now.first.seen) }
        ensures refused { IfErr result (RefusesNext D.IsTold self.old (D.told disk.old).now) }
        ensures faults { D.faults disk.new ≡ faults_after (is_fault result) (D.faults disk.old) }
    {
        match self.journal.next(disk) {
            Ok(Some(item)) => self.taken(&item),
            Ok(None) => Ok(false),
            Err(error) => Err(error_of(error)),
        }
    }

    // Takes the file of an item. True.
    fn taken(&mut self, item: &Item) -> Result<bool, CollectError>
        ensures journal { self.new.journal ≡ self.old.journal }
        ensures takes { IfOk result (λ more. (more ≡ true) × Takes item.now.bytes item.now.offset self.old.names self.new.names) }
        ensures refused { IfErr result (RefusesItem item.now.bytes item.now.offset self.old.names) }
    {
        let offset = item.offset;
        let Some((name, text)) = split_item(item.bytes.as_bytes()) else {
            return Err(CollectError::Garbled { offset });
        };
        if self.names.holds(name) {
            return Err(CollectError::Garbled { offset });
        }
        match check_stored(self.alloc, name, text, offset) {
            Ok(()) => match self.names.keep(name, place_of(offset, name, text)) {
                Ok(()) => Ok(true),
                Err(_) => Err(CollectError::Memory),
            },
            Err(error) => Err(error),
        }
    }

    // Whether the store has room for a file.
    fn check_room(&self, name: &[u8], text: &[u8]) -> Result<(), CollectError>
        requires ready { IsReady self.now }
        requires short { length name.now ≤ 255 }
        ensures room { OnOk result (length_of self.now + item_room name.now text.now ≤ MOST_BYTES) }
        ensures refused { IfErr result (λ e. (e ≡ CollectError.StoreFull (length_of self.now) (length_of self.now + item_room name.now text.now)) × (MOST_BYTES < length_of self.now + item_room name.now text.now)) }
    {
        let length = self.journal.length();
        let need = length + ITEM_BYTES + name.len() as u64 + text.len() as u64;
        if need > MOST_BYTES {
            return Err(CollectError::StoreFull { length, need });
        }
        Ok(())
    }

    // Adds an item to the store.
    fn append<D: Disk>(&mut self, disk: &mut D, item: &[u8]) -> Result<(), CollectError>
        requires ready { IsReady self.old }
        requires tied { D.IsTold → IsTied self.old (D.told disk.old).now }
        requires room { length_of self.old + 5 + length item.now ≤ MOST_BYTES }

        ensures added { D.IsTold → (items : List (List ℕ)) → journal.IsAt self.old.journal (D.told disk.old).now.first items []
            → OnOk result (journal.IsAt self.new.journal (D.told disk.new).now.first (items ++ item.now ∷ []) []) }
        ensures names { self.new.names ≡ self.old.names }
        ensures ready { OnOk result (IsReady self.new) }
        ensures tied { D.IsTold → OnOk result (IsTied self.new (D.told disk.new).now) }
        ensures any_moment { D.IsTold → (items : List (List ℕ)) → journal.IsAt self.old.journal (D.told disk.old).now.first items []
            → Throughout (HasEither First (D.told disk.old).now items (items ++ item.now ∷ [])) (D.told disk.old) (D.told disk.new) }
        ensures refused { OnErr result (result ≡ Err CollectError.StoreFault) }
        ensures faults { D.faults disk.new ≡ faults_after (is_fault result) (D.faults disk.old) }
    {
        match self.journal.append(disk, item) {
            Ok(()) => Ok(()),
            Err(JournalError::StoreFault) => Err(CollectError::StoreFault),
            Err(_) => unreachable!(),
        }
    }
}

// Where the file of an item lies whose gate is at this offset.
fn place_of(gate: u64, name: &[u8], text: &[u8]) -> Place
    ensures offset { gate ≤ 2 ^ 32 → length name.now ≤ 255 → result.offset ≡ file_offset gate name.now }
    ensures size { result.size ≡ length text.now }
{
    Place {
        offset: gate
            .saturating_add(ITEM_BYTES)
            .saturating_add(name.len() as u64),
        size: text.len() as u64,
    }
}

// Whether the text that is stored at this offset is a report of this name.
fn check_stored(alloc: Global, name: &[u8], text: &[u8], offset: u64) -> Result<(), CollectError>
    ensures is { OnOk result (IsReportOf name.now text.now) }
    ensures refused { result ≡ Err (CollectError.Garbled offset) → IsReportOf name.now text.now → ⊥ }
    ensures no_other { IfErr result (λ e. (e ≡ CollectError.Garbled offset) ⊎ (e ≡ CollectError.Memory)) }
{
    match check_report(alloc, name, text) {
        Ok(()) => Ok(()),
        Err(CollectError::C3) => Err(CollectError::Garbled { offset }),
        Err(_) => Err(CollectError::Memory),
    }
}

// Why the store isn't read.
fn error_of(error: JournalError) -> CollectError
    ensures { IsErrorOf error result }
{
    match error {
        JournalError::StoreFault => CollectError::StoreFault,
        JournalError::Foreign => CollectError::Foreign,
        JournalError::Garbled { offset } => CollectError::Garbled { offset },
        JournalError::StoreFull { length, need } => CollectError::StoreFull { length, need },
        JournalError::Memory => CollectError::Memory,
    }
}
