//! The slots of an inventory, looked up by the names that lines of events have.
ghost use Rattle.std.specs.Prelude.{◌≡◌, ◌<◌, ◌≤◌, ◌++◌, ◌∷◌, ◌↔◌, ℕ, List, [], Some, length, IfOk, IfSome, OnOk, IsTrue, slice_get};
ghost use Rattle.pm_meas.specs.Def.{IsKind};
ghost use Rattle.pm_inventory.specs.Slot.{Slot, slot_place, registers_each_of, slots_of_def, event_slots};
ghost use Rattle.pm_inventory.specs.SlotNames.{slot_names, names_place, HasNoSpace, AreDistinct, AreWords};
ghost use Rattle.pm_events.specs.SlotTableFields.{slot_of_named, Lists, IsTable};

use crate::named_slot::NamedSlot;
use crate::names_hash::hash_of;
use crate::same_names::is_same;
use crate::slot_places::{PLACES, SlotPlaces};
use pm_base::Blob;
use pm_dn::Tree;
use pm_inventory::{Inventory, MAX_SLOTS, has_class};
use pm_meas::{Def, Kind, Reduce};
use std::alloc::{AllocError, Global};
use std::marker::Model;

/// The slots of an inventory, each at the place that is its number. Contracts see it as their list.
#[derive(Debug, Drop)]
pub struct SlotTable {
    entries: Vec<NamedSlot>,
    places: SlotPlaces,
}

impl Model for SlotTable {
    ghost use Rattle.std.specs.Prelude.{List, map};
    ghost use Rattle.pm_inventory.specs.Slot.{Slot};
    ghost use Rattle.pm_events.specs.SlotTableFields.{slot_of_named, IsTable};

    ghost Value = { List Slot };

    ghost view = { λ t. map slot_of_named t.entries.items };

    ghost invariant = { λ t. IsTable t.entries.items };
}

impl SlotTable {
    /// The slots of the inventory, by metric in catalogue order and within one metric by object in tree order.
    pub fn new(alloc: Global, inventory: &Inventory) -> Result<SlotTable, AllocError>
        ensures { IfOk result (λ table. table ≡ event_slots inventory.now) }
    {
        let mut entries = Vec::with_capacity(alloc, usize::from(inventory.slots()))?;
        list_slots(alloc, &mut entries, inventory)?;
        let places = places_of(alloc, &entries)?;
        Ok(SlotTable { entries, places })
    }

    /// How many slots there are, at most 4,096.
    pub fn len(&self) -> u16
        ensures value { result ≡ length self.now }
        ensures most { result ≤ MAX_SLOTS }
        ensures distinct { AreDistinct self.now }
    {
        self.entries.len() as u16
    }

    /// Whether there is no slot.
    pub fn is_empty(&self) -> bool
        ensures { IsTrue result ↔ (length self.now ≡ 0) }
    {
        self.entries.is_empty()
    }

    /// The number of the slot of these names, the object's and the metric's with a space between.
    #[inline(always)]
    pub fn find(&self, names: &[u8]) -> Option<u16>
        ensures place { result ≡ names_place self.now names.now }
        ensures pair { (object metric : List ℕ) → HasNoSpace object → names.now ≡ object ++ 32 ∷ metric → result ≡ slot_place self.now object metric }
        ensures within { IfSome result (λ slot. slot < length self.now) }
        ensures words { AreWords self.now }
    {
        match self.guess(names) {
            Some(slot) => Some(slot),
            None => self.search(names),
        }
    }

    // By the table of places, of whose content nothing is known.
    #[inline(always)]
    fn guess(&self, names: &[u8]) -> Option<u16>
        ensures answer { IfSome result (λ slot. names_place self.now names.now ≡ Some slot) }
        ensures words { AreWords self.now }
    {
        let hash = hash_of(names);
        for step in 0..PLACES as u64 {
            let slot = self.places.number_at(hash, step)?;
            if self.has_names(slot, names) {
                return Some(slot);
            }
        }
        None
    }

    // One slot after the other.
    #[cold]
    #[inline(never)]
    fn search(&self, names: &[u8]) -> Option<u16>
        ensures { result ≡ names_place self.now names.now }
    {
        for slot in 0..self.len() {
            if self.has_names(slot, names) {
                return Some(slot);
            }
        }
        None
    }

    #[inline(always)]
    fn has_names(&self, slot: u16, names: &[u8]) -> bool
        ensures { IsTrue result ↔ (names_place self.now names.now ≡ Some slot) }
    {
        if slot as usize >= self.entries.len() {
            return false;
        }
        is_same(self.entries[slot as usize].names.as_bytes(), names)
    }

    /// The names of a slot, the object's and the metric's with a space between.
    pub fn names(&self, slot: u16) -> &[u8]
        requires { slot < length self.now }
        ensures { (s : Slot) → slice_get self.now slot ≡ Some s → result.now ≡ slot_names s }
    {
        self.entries[slot as usize].names.as_bytes()
    }

    /// The reduction of a slot's metric.
    pub fn reduce(&self, slot: u16) -> Reduce
        requires { slot < length self.now }
        ensures { (s : Slot) → slice_get self.now slot ≡ Some s → result ≡ s.reduce }
    {
        self.entries[slot as usize].reduce
    }

    /// Of how many events of a tick a slot registers one.
    pub fn registers_each(&self, slot: u16) -> u16
        requires { slot < length self.now }
        ensures value { (s : Slot) → slice_get self.now slot ≡ Some s → result ≡ s.registers_each }
        ensures range { (1 ≤ result) × (result ≤ 1000) }
    {
        self.entries[slot as usize].registers_each
    }
}

fn places_of(alloc: Global, entries: &[NamedSlot]) -> Result<SlotPlaces, AllocError>
    requires { length entries.now ≤ MAX_SLOTS }
{
    let mut places = SlotPlaces::new(alloc)?;
    for (slot, entry) in entries.iter().enumerate() {
        places.note(hash_of(entry.names.as_bytes()), slot as u16);
    }
    Ok(places)
}

// Puts the slots of all metrics after the entries.
fn list_slots(
    alloc: Global,
    entries: &mut Vec<NamedSlot>,
    inventory: &Inventory,
) -> Result<(), AllocError>
    requires { entries.old.items ≡ [] }
    ensures listed { OnOk result (Lists entries.new.items (event_slots inventory.now)) }
    ensures distinct { OnOk result (AreDistinct (event_slots inventory.now)) }
    ensures words { OnOk result (AreWords (event_slots inventory.now)) }
{
    let (tree, catalogue) = (inventory.tree(), inventory.catalogue());
    let objects = tree.len();
    for metric in 0..catalogue.len() {
        list_metric(alloc, entries, tree, objects, catalogue.def(metric))?;
    }
    Ok(())
}

// Puts the slots of one metric after the entries.
fn list_metric(
    alloc: Global,
    entries: &mut Vec<NamedSlot>,
    tree: &Tree,
    objects: u16,
    def: &Def,
) -> Result<(), AllocError>
    requires all { objects ≡ length tree.now }
    requires kind { IsKind def.now.kind }
    ensures { OnOk result ((slots : List Slot) → Lists entries.old.items slots → Lists entries.new.items (slots ++ slots_of_def tree.now def.now)) }
{
    for object in 0..objects {
        if has_class(tree, object, def.class) {
            entries.push(entry_of(alloc, tree.text(object), def)?)?;
        }
    }
    Ok(())
}

// The slot of an object and a metric.
fn entry_of(alloc: Global, object: &[u8], def: &Def) -> Result<NamedSlot, AllocError>
    requires { IsKind def.now.kind }
    ensures slot { IfOk result (λ e. slot_of_named e ≡ record { object = object.now; metric = def.now.name; reduce = def.now.reduce; registers_each = registers_each_of def.now.kind }) }
    ensures names { IfOk result (λ e. e.names ≡ slot_names (slot_of_named e)) }
{
    Ok(NamedSlot {
        names: joined(alloc, object, def.name.as_bytes())?,
        object: object.len(),
        reduce: def.reduce,
        registers_each: registers_each(def.kind),
    })
}

fn joined(alloc: Global, object: &[u8], metric: &[u8]) -> Result<Blob, AllocError>
    ensures { IfOk result (λ names. names ≡ object.now ++ 32 ∷ metric.now) }
{
    let mut names = Vec::new(alloc);
    names.extend_from_slice(object)?;
    names.push(b' ')?;
    names.extend_from_slice(metric)?;
    Ok(Blob::from_vec(names))
}

fn registers_each(kind: Kind) -> u16
    requires { IsKind kind }
    ensures value { result ≡ registers_each_of kind }
    ensures range { (1 ≤ result) × (result ≤ 1000) }
{
    match kind {
        Kind::Der { n } => n as u16,
        Kind::Cc | Kind::Gauge | Kind::Si => 1,
    }
}
