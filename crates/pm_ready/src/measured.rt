//! What a job measures, class by class.
ghost use Rattle.std.specs.Prelude.{◌≡◌, ◌<◌, ◌≤◌, ◌++◌, map, length, IfOk, OnOk, MatchOption, option_to_list};
ghost use Rattle.std.specs.List.{filter};
ghost use Rattle.pm_asked.specs.Asked.{Numbered, metric_of, same_class, measured_objects, measured_of as measured_in, measured_asked};
ghost use Rattle.pm_jobs.specs.Numbered.{numbered, AreBelow};
ghost use Rattle.pm_close.specs.Parts.{quantities_in};
ghost use Rattle.pm_ready.specs.Measured.{measured_of};

use pm_base::{CLASSES, Class};
use pm_history::Metric;
use pm_inventory::{Inventory, has_class};
use std::alloc::{AllocError, Global};

/// What a job measures on the objects of one class: metrics in catalogue order, objects in tree order.
#[derive(Drop)]
pub(crate) struct Measured {
    pub(crate) class: Class,
    pub(crate) metrics: Vec<Metric>,
    pub(crate) objects: Vec<u16>,
}

fn is_same_class(a: Class, b: Class) -> bool
    ensures { result ≡ same_class a b }
{
    a.name().as_bytes() == b.name().as_bytes()
}

fn metrics_of(
    alloc: Global,
    inventory: &Inventory,
    metrics: &[u8],
    class: Class,
) -> Result<Vec<Metric>, AllocError>
    requires { AreBelow (length inventory.now.measures) metrics.now }
    ensures { IfOk result (λ v. v.items ≡ map metric_of (filter (λ (m : Numbered). same_class m.1.class class) (numbered inventory.now metrics.now))) }
{
    let catalogue = inventory.catalogue();
    let mut found = Vec::new(alloc);
    for number in metrics {
        let def = catalogue.def(*number);
        if is_same_class(def.class, class) {
            found.push(Metric {
                number: *number,
                reduce: def.reduce,
            })?;
        }
    }
    Ok(found)
}

fn objects_of(
    alloc: Global,
    inventory: &Inventory,
    objects: &[u16],
    class: Class,
) -> Result<Vec<u16>, AllocError>
    requires { AreBelow (length inventory.now.objects) objects.now }
    ensures { IfOk result (λ v. v.items ≡ measured_objects inventory.now objects.now class) }
{
    let tree = inventory.tree();
    let mut found = Vec::new(alloc);
    for object in objects {
        if has_class(tree, *object, class) {
            found.push(*object)?;
        }
    }
    Ok(found)
}

// What they measure on those of one class, if anything.
fn of_class(
    alloc: Global,
    inventory: &Inventory,
    metrics: &[u8],
    objects: &[u16],
    class: Class,
) -> Result<Option<Measured>, AllocError>
    requires metrics { AreBelow (length inventory.now.measures) metrics.now }
    requires objects { AreBelow (length inventory.now.objects) objects.now }
    ensures { IfOk result (λ measured. map measured_of (option_to_list measured) ≡ measured_in inventory.now objects.now class (filter (λ (m : Numbered). same_class m.1.class class) (numbered inventory.now metrics.now))) }
{
    let metrics = metrics_of(alloc, inventory, metrics, class)?;
    if metrics.is_empty() {
        return Ok(None);
    }
    let objects = objects_of(alloc, inventory, objects, class)?;
    Ok(Some(Measured {
        class,
        metrics,
        objects,
    }))
}

fn push_some(found: &mut Vec<Measured>, measured: Option<Measured>) -> Result<(), AllocError>
    ensures { OnOk result (found.new.items ≡ found.old.items ++ option_to_list measured) }
{
    if let Some(measured) = measured {
        found.push(measured)?;
    }
    Ok(())
}

/// What these metrics measure on these objects.
pub(crate) fn measured_on(
    alloc: Global,
    inventory: &Inventory,
    metrics: &[u8],
    objects: &[u16],
) -> Result<Vec<Measured>, AllocError>
    requires metrics { AreBelow (length inventory.now.measures) metrics.now }
    requires objects { AreBelow (length inventory.now.objects) objects.now }
    ensures { IfOk result (λ v. map measured_of v.items ≡ measured_asked inventory.now (numbered inventory.now metrics.now) objects.now) }
{
    let mut found = Vec::new(alloc);
    for class in CLASSES {
        let measured = of_class(alloc, inventory, metrics, objects, class)?;
        push_some(&mut found, measured)?;
    }
    Ok(found)
}

/// How many values a part has of these measurements; none where there are more than so many.
pub(crate) fn values_of(measured: &Measured, most: usize) -> Option<usize>
    ensures { MatchOption result (most < length (quantities_in (measured_of measured.now))) (λ n. (n ≡ length (quantities_in (measured_of measured.now))) × (n ≤ most)) }
{
    let mut count = 0;
    for object in &measured.objects {
        if most - count < measured.metrics.len() {
            return None;
        }
        count += measured.metrics.len();
    }
    Some(count)
}
