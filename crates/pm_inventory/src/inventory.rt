//! The inventory of a base station, and the numbers of its slots.
ghost use Rattle.std.specs.Prelude.{◌≡◌, ◌<◌, ◌≤◌, ◌↔◌, ◌+◌, ◌*◌, [], length, take, IfOk, IfSome, Some, Err, slice_get, slice_index_or};
ghost use Rattle.pm_dn.specs.Containment.{has_path_to};
ghost use Rattle.std.specs.List.{list_any};
ghost use Rattle.pm_dn.specs.Tree.{is_root, objects_of};
ghost use Rattle.pm_meas.specs.declared.def.Def.{Def};
ghost use Rattle.pm_inventory.specs.Inventory.{HasRoot, HasSlots, slots_of, slots, slot_number, inventory_text};
ghost use Rattle.pm_inventory.specs.Slot.{slot_place, event_slots};
ghost use Rattle.pm_inventory.specs.Default.{IsDefault};
ghost use Rattle.pm_inventory.specs.InventoryFields.{AreFirst, ArePlaces};

use crate::default::{default_catalogue, default_tree};
use crate::inventory_text::{write_measures, write_objects};
use pm_base::{Blob, Class};
use pm_dn::{MAX_OBJECTS, Tree};
use pm_meas::Catalogue;
use std::alloc::{AllocError, Global};
use std::marker::Model;
use thiserror::Error;

/// The most slots of an inventory.
pub const MAX_SLOTS: u16 = 4_096;

/// Why a tree and a catalogue are no inventory.
#[derive(Clone, Copy, Debug, PartialEq, Eq, Error)]
pub enum InvError {
    /// There is no ManagedElement.
    #[error("the inventory has no ManagedElement")]
    N10,
    /// There is no slot, or there are over `MAX_SLOTS`.
    #[error("the inventory has no slot, or over {MAX_SLOTS}")]
    M5,
    /// Out of memory.
    #[error("out of memory")]
    Memory,
}

/// The objects and the measurements of a base station. A slot is a metric and an object of the metric's class. Slots are
/// numbered from 0, by metric in catalogue order and within one metric by object in tree order.
#[derive(Drop)]
pub struct Inventory {
    tree: Tree,
    catalogue: Catalogue,
    // By metric, the slots before its own.
    first: Vec<u16>,
    // By object, the objects of its class before it.
    places: Vec<u16>,
    slots: u16,
}

impl Model for Inventory {
    ghost use Rattle.pm_inventory.specs.Inventory.{InventoryState};

    ghost Value = { InventoryState };

    ghost use Rattle.pm_inventory.specs.InventoryFields.{IsNumbered, inventory_state};

    ghost view = { inventory_state };

    ghost invariant = { IsNumbered };
}

impl Inventory {
    /// The inventory of these objects and measurements.
    pub fn finish(alloc: Global, tree: Tree, catalogue: Catalogue) -> Result<Inventory, InvError>
        ensures inventory { IfOk result (λ i. i ≡ record { objects = tree; measures = catalogue }) }
        ensures finished { IfOk result (λ i. HasRoot tree × HasSlots tree catalogue) }
        ensures no_root { (result ≡ Err InvError.N10) ↔ ¬ HasRoot tree }
        ensures slots { (result ≡ Err InvError.M5) ↔ (HasRoot tree × ¬ HasSlots tree catalogue) }
    {
        if !has_root(&tree) {
            return Err(InvError::N10);
        }
        let slots = count_slots(&tree, &catalogue);
        if slots == 0 || slots > MAX_SLOTS {
            return Err(InvError::M5);
        }
        let Ok(first) = first_slots(alloc, &tree, &catalogue) else {
            return Err(InvError::Memory);
        };
        let Ok(places) = places(alloc, &tree) else {
            return Err(InvError::Memory);
        };
        Ok(Inventory {
            tree,
            catalogue,
            first,
            places,
            slots,
        })
    }

    /// The objects.
    pub fn tree(&self) -> &Tree
        ensures { result.now ≡ self.now.objects }
    {
        &self.tree
    }

    /// The measurements.
    pub fn catalogue(&self) -> &Catalogue
        ensures { result.now ≡ self.now.measures }
    {
        &self.catalogue
    }

    /// How many slots there are.
    pub fn slots(&self) -> u16
        ensures value { result ≡ length (slots self.now) }
        ensures root { HasRoot self.now.objects }
        ensures some_slots { HasSlots self.now.objects self.now.measures }
    {
        self.slots
    }

    /// The number of the slot of an object and a metric, by their numbers; none where the metric isn't one of the object's
    /// class, or where there is no such object or metric.
    pub fn slot(&self, object: u16, metric: u8) -> Option<u16>
        ensures number { result ≡ slot_number self.now object metric }
        ensures within { IfSome result (λ slot. slot < length (slots self.now)) }

        // Among the slots that lines of events name it is the place of that with the names of the object and the metric.
        ensures named { IfSome result (λ slot. (def : Def) → slice_get self.now.measures metric ≡ Some def → slot_place (event_slots self.now) (slice_index_or self.now.objects object []) def.name ≡ Some slot) }
    {
        if object >= self.tree.len() || metric >= self.catalogue.len() {
            return None;
        }
        if !has_class(&self.tree, object, self.catalogue.def(metric).class) {
            return None;
        }
        Some(self.first[metric as usize] + self.places[object as usize])
    }

    /// The canonical text: the lines `object LDN` in tree order, `measure NAME CLASS KIND REDUCE` in catalogue order and
    /// `end`, each with its line feed. Two inventories are the same where their texts are.
    pub fn text(&self, alloc: Global) -> Result<Blob, AllocError>
        ensures { IfOk result (λ blob. blob ≡ inventory_text self.now) }
    {
        let mut text = Vec::new(alloc);
        write_objects(&mut text, &self.tree)?;
        write_measures(alloc, &mut text, &self.catalogue)?;
        text.extend_from_slice(b"end\n")?;
        Ok(Blob::from_vec(text))
    }

    /// The inventory that the line `end` alone stands for: 6 objects, 9 measurements and 15 slots.
    pub fn default(alloc: Global) -> Result<Inventory, AllocError>
        ensures { IfOk result IsDefault }
    {
        let tree = default_tree(alloc)?;
        let catalogue = default_catalogue(alloc)?;
        match Inventory::finish(alloc, tree, catalogue) {
            Ok(inventory) => Ok(inventory),
            Err(_) => Err(AllocError),
        }
    }
}

// The first object of a tree is its root.
fn has_root(tree: &Tree) -> bool
    ensures { result ≡ list_any is_root tree.now }
{
    tree.len() > 0
}

/// Whether an object of a tree is of a class.
pub fn has_class(tree: &Tree, object: u16, class: Class) -> bool
    requires { object < length tree.now }
    ensures { result ≡ has_path_to class (slice_index_or tree.now object []) }
{
    tree.class(object) == class
}

// How many of the objects before this number are of the class.
fn objects_before(tree: &Tree, end: u16, class: Class) -> u16
    requires { end ≤ length tree.now }
    ensures count { result ≡ length (objects_of (take end tree.now) class) }
    ensures most { result ≤ end }
{
    let mut count = 0;
    for object in 0..end {
        if has_class(tree, object, class) {
            count += 1;
        }
    }
    count
}

// How many objects of the metric's class there are.
fn objects_of_metric(tree: &Tree, catalogue: &Catalogue, metric: u8) -> u16
    requires { metric < length catalogue.now }
    ensures more { length (slots_of tree.now (take (metric + 1) catalogue.now)) ≡ length (slots_of tree.now (take metric catalogue.now)) + result }
    ensures most { result ≤ MAX_OBJECTS }
{
    objects_before(tree, tree.len(), catalogue.def(metric).class)
}

fn count_slots(tree: &Tree, catalogue: &Catalogue) -> u16
    ensures { result ≡ length (slots_of tree.now catalogue.now) }
{
    let mut count = 0;
    for metric in 0..catalogue.len() {
        count += objects_of_metric(tree, catalogue, metric);
    }
    count
}

fn first_slots(alloc: Global, tree: &Tree, catalogue: &Catalogue) -> Result<Vec<u16>, AllocError>
    ensures { IfOk result (λ first. AreFirst tree.now catalogue.now first.items) }
{
    let mut first = Vec::new(alloc);
    let mut count = 0;
    for metric in 0..catalogue.len() {
        first.push(count)?;
        count += objects_of_metric(tree, catalogue, metric);
    }
    Ok(first)
}

fn places(alloc: Global, tree: &Tree) -> Result<Vec<u16>, AllocError>
    ensures { IfOk result (λ places. ArePlaces tree.now places.items) }
{
    let mut places = Vec::new(alloc);
    for object in 0..tree.len() {
        places.push(objects_before(tree, object, tree.class(object)))?;
    }
    Ok(places)
}
