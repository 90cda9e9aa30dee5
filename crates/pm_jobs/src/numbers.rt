//! The numbers of the metrics and objects that a body asks for.
ghost use Rattle.std.specs.Prelude.{◌≡◌, ◌<◌, ◌≤◌, ◌||◌, ◌==◌, ℕ, length, map, string_bytes, Bool, List, true, false, bytes_eq, IfOk, OnOk, slice_index_or, position};
ghost use Rattle.std.specs.List.{list_any, list_all, before_first};
ghost use Rattle.pm_dn.specs.Tree.{stands, is_under, numbers_where};
ghost use Rattle.pm_asked.specs.Asked.{asks_for, metrics_asked, objects_asked};
ghost use Rattle.pm_jobs.specs.Rules.{is_metric};
ghost use Rattle.pm_jobs.specs.Stands.{numbers};
ghost use Rattle.pm_jobs.specs.Marks.{AreMarks};
ghost use Rattle.pm_jobs.specs.Numbered.{AreBelow};

use pm_dn::{MAX_OBJECTS, Tree};
use pm_inventory::Inventory;
use pm_meas::{Catalogue, Def};
use std::alloc::{AllocError, Global};

fn dot(name: &[u8]) -> Option<usize>
    ensures { result ≡ position (λ b. b == 46) name.now }
{
    name.iter().position(|b| *b == b'.')
}

// The part before the first dot.
fn family_of(name: &[u8]) -> &[u8]
    ensures { result.now ≡ before_first (λ b. b == 46) name.now }
{
    match dot(name) {
        Some(end) => &name[..end],
        None => name,
    }
}

// Whether a text is the name of a metric, or its family.
fn asks_for(def: &Def, text: &[u8]) -> bool
    ensures { result ≡ asks_for def.now text.now }
{
    let name = def.name.as_bytes();
    text == name || text == family_of(name)
}

fn is_wanted(def: &Def, texts: &[String]) -> bool
    ensures { result ≡ list_any (λ t. asks_for def.now (string_bytes t)) texts.now }
{
    texts.iter().any(|text| asks_for(def, text.as_bytes()))
}

/// The numbers of the metrics that texts ask for, in catalogue order.
pub(crate) fn metric_numbers(
    alloc: Global,
    inventory: &Inventory,
    texts: &[String],
) -> Result<Vec<u8>, AllocError>
    ensures numbers { IfOk result (λ v. v.items ≡ numbers (metrics_asked inventory.now (map string_bytes texts.now))) }
    ensures below { IfOk result (λ v. AreBelow (length inventory.now.measures) v.items) }
    ensures few { IfOk result (λ v. length v.items ≤ 64) }
{
    let catalogue = inventory.catalogue();
    let mut metrics = Vec::new(alloc);
    for metric in 0..catalogue.len() {
        if is_wanted(catalogue.def(metric), texts) {
            metrics.push(metric)?;
        }
    }
    Ok(metrics)
}

fn is_metric(catalogue: &Catalogue, text: &[u8]) -> bool
    ensures { result ≡ list_any (λ def. asks_for def text.now) catalogue.now }
{
    for metric in 0..catalogue.len() {
        if asks_for(catalogue.def(metric), text) {
            return true;
        }
    }
    false
}

/// Whether each text is the name of a metric, or a family.
pub(crate) fn are_metrics(inventory: &Inventory, texts: &[String]) -> bool
    ensures { result ≡ list_all (λ t. is_metric inventory.now (string_bytes t)) texts.now }
{
    let catalogue = inventory.catalogue();
    texts
        .iter()
        .all(|text| is_metric(catalogue, text.as_bytes()))
}

fn is_object(tree: &Tree, name: &[u8]) -> bool
    ensures { result ≡ stands tree.now name.now }
{
    tree.find(name).is_some()
}

/// Whether each text is the name of an object.
pub(crate) fn are_objects(inventory: &Inventory, names: &[String]) -> bool
    ensures { result ≡ list_all (λ t. stands inventory.now.objects (string_bytes t)) names.now }
{
    let tree = inventory.tree();
    names.iter().all(|name| is_object(tree, name.as_bytes()))
}

fn mark(marks: &mut [bool], object: usize)
    ensures { (k : ℕ) → k < length marks.old → slice_index_or marks.new k false ≡ (slice_index_or marks.old k false || object == k) }
{
    if object < marks.len() {
        marks[object] = true;
    }
}

// Marks what these numbers name.
fn mark_each(marks: &mut [bool], numbers: &[u16])
    ensures { (k : ℕ) → k < length marks.old → slice_index_or marks.new k false ≡ (slice_index_or marks.old k false || list_any (λ n. n == k) numbers.now) }
{
    for number in numbers {
        mark(marks, *number as usize);
    }
}

// Marks the object of this name, if there is one.
fn mark_object(tree: &Tree, marks: &mut [bool], name: &[u8])
    ensures { (p : List ℕ → Bool) → AreMarks tree.now p marks.old → AreMarks tree.now (λ n. p n || bytes_eq n name.now) marks.new }
{
    match tree.find(name) {
        Some(object) => mark_each(marks, &[object]),
        None => {}
    }
}

fn mark_objects(tree: &Tree, marks: &mut [bool], names: &[String])
    ensures { (p : List ℕ → Bool) → AreMarks tree.now p marks.old → AreMarks tree.now (λ n. p n || list_any (bytes_eq n) (map string_bytes names.now)) marks.new }
{
    for name in names {
        mark_object(tree, marks, name.as_bytes());
    }
}

// Marks an object and all below it.
fn mark_subtree(
    alloc: Global,
    tree: &Tree,
    marks: &mut [bool],
    root: &[u8],
) -> Result<(), AllocError>
    requires { stands tree.now root.now ≡ true }
    ensures { OnOk result ((p : List ℕ → Bool) → AreMarks tree.now p marks.old → AreMarks tree.now (λ n. p n || is_under root.now n) marks.new) }
{
    match tree.find(root) {
        Some(object) => {
            let below = tree.subtree(alloc, object)?;
            mark_each(marks, &below);
            Ok(())
        }
        None => Ok(()),
    }
}

fn mark_subtrees(
    alloc: Global,
    tree: &Tree,
    marks: &mut [bool],
    roots: &[String],
) -> Result<(), AllocError>
    requires { list_all (stands tree.now) (map string_bytes roots.now) ≡ true }
    ensures { OnOk result ((p : List ℕ → Bool) → AreMarks tree.now p marks.old → AreMarks tree.now (λ n. p n || list_any (λ root. is_under root n) (map string_bytes roots.now)) marks.new) }
{
    for root in roots {
        mark_subtree(alloc, tree, marks, root.as_bytes())?;
    }
    Ok(())
}

// The numbers of the marks before `end`.
fn marked(alloc: Global, marks: &[bool], end: u16) -> Result<Vec<u16>, AllocError>
    requires { end ≤ length marks.now }
    ensures { IfOk result (λ v. (tree : List (List ℕ)) (p : List ℕ → Bool) → end ≡ length tree → AreMarks tree p marks.now → v.items ≡ numbers_where p tree) }
{
    let mut objects = Vec::new(alloc);
    for object in 0..end {
        if marks[object as usize] {
            objects.push(object)?;
        }
    }
    Ok(objects)
}

/// The numbers of the objects that are named singly or by the subtrees of roots, in tree order.
pub(crate) fn object_numbers(
    alloc: Global,
    inventory: &Inventory,
    objects: &[String],
    roots: &[String],
) -> Result<Vec<u16>, AllocError>
    requires { list_all (stands inventory.now.objects) (map string_bytes roots.now) ≡ true }
    ensures numbers { IfOk result (λ v. v.items ≡ objects_asked inventory.now (map string_bytes objects.now) (map string_bytes roots.now)) }
    ensures below { IfOk result (λ v. AreBelow (length inventory.now.objects) v.items) }
    ensures few { IfOk result (λ v. length v.items ≤ 256) }
{
    let tree = inventory.tree();
    let mut marks = [false; MAX_OBJECTS];
    mark_objects(tree, &mut marks, objects);
    mark_subtrees(alloc, tree, &mut marks, roots)?;
    marked(alloc, &marks, tree.len())
}
