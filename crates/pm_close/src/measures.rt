//! What a job measures, from the numbers of its metrics and objects.

ghost use Rattle.std.specs.Prelude.{◌≡◌, ◌<◌, [], length, take, IfOk, OnOk};
ghost use Rattle.pm_inventory.specs.Inventory.{slots};
ghost use Rattle.pm_history.specs.declared.entry.Side.TheVariants.{Job};
ghost use Rattle.pm_asked.specs.Asked.{same_class, terms_of};
ghost use Rattle.pm_jobs.specs.Numbered.{AreBelow};
ghost use Rattle.pm_jobs.specs.Stands.{Keeps};
ghost use Rattle.pm_close.specs.Parts.{AreWithin, ReadEach, quantities_of};
ghost use Rattle.pm_close.specs.Measures.{AddsReads, quantity_on, quantities_for, quantities_with, quantities_asked};

use crate::measure::Measure;
use pm_base::{CLASSES, Class};
use pm_inventory::Inventory;
use pm_jobs::Standing;
use std::alloc::{AllocError, Global};

fn is_same(a: Class, b: Class) -> bool
    ensures { result ≡ same_class a b }
{
    a.name() == b.name()
}

// Adds the measure of a metric on an object, if both are of the class.
fn add_measure(
    inventory: &Inventory,
    class: Class,
    object: u16,
    metric: u8,
    measures: &mut Vec<Measure>,
) -> Result<(), AllocError>
    ensures reads { metric < length inventory.now.measures → OnOk result (AddsReads inventory.now measures.old.items (quantity_on inventory.now class object metric) measures.new.items) }
    ensures within { AreWithin (length (slots inventory.now)) measures.old.items → OnOk result (AreWithin (length (slots inventory.now)) measures.new.items) }
{
    let catalogue = inventory.catalogue();
    if metric >= catalogue.len() {
        return Ok(());
    }
    let def = catalogue.def(metric);
    if !is_same(def.class, class) {
        return Ok(());
    }
    match inventory.slot(object, metric) {
        Some(slot) => {
            measures.push(Measure {
                slot: u32::from(slot),
                reduce: def.reduce,
            })?;
            Ok(())
        }
        None => Ok(()),
    }
}

fn add_on_object(
    inventory: &Inventory,
    class: Class,
    metrics: &[u8],
    object: u16,
    measures: &mut Vec<Measure>,
) -> Result<(), AllocError>
    ensures reads { AreBelow (length inventory.now.measures) metrics.now → OnOk result (AddsReads inventory.now measures.old.items (quantities_for inventory.now class metrics.now object) measures.new.items) }
    ensures within { AreWithin (length (slots inventory.now)) measures.old.items → OnOk result (AreWithin (length (slots inventory.now)) measures.new.items) }
{
    for metric in metrics {
        add_measure(inventory, class, object, *metric, measures)?;
    }
    Ok(())
}

fn add_of_class(
    inventory: &Inventory,
    metrics: &[u8],
    objects: &[u16],
    class: Class,
    measures: &mut Vec<Measure>,
) -> Result<(), AllocError>
    ensures reads { AreBelow (length inventory.now.measures) metrics.now → OnOk result (AddsReads inventory.now measures.old.items (quantities_with inventory.now metrics.now objects.now class) measures.new.items) }
    ensures within { AreWithin (length (slots inventory.now)) measures.old.items → OnOk result (AreWithin (length (slots inventory.now)) measures.new.items) }
{
    for object in objects {
        add_on_object(inventory, class, metrics, *object, measures)?;
    }
    Ok(())
}

fn measures_asked(
    alloc: Global,
    inventory: &Inventory,
    metrics: &[u8],
    objects: &[u16],
) -> Result<Vec<Measure>, AllocError>
    ensures reads { AreBelow (length inventory.now.measures) metrics.now → IfOk result (λ v. ReadEach (slots inventory.now) v.items (quantities_asked inventory.now metrics.now objects.now)) }
    ensures within { IfOk result (λ v. AreWithin (length (slots inventory.now)) v.items) }
{
    let mut measures = Vec::new(alloc);
    for class in CLASSES {
        add_of_class(inventory, metrics, objects, class, &mut measures)?;
    }
    Ok(measures)
}

/// The measures of a job, in the order of its report.
pub fn measures_of(
    alloc: Global,
    inventory: &Inventory,
    standing: &Standing,
) -> Result<Vec<Measure>, AllocError>
    ensures reads { Keeps inventory.now Job standing.now → IfOk result (λ v. ReadEach (slots inventory.now) v.items (quantities_of (terms_of inventory.now Job standing.now.body).measured)) }
    ensures within { IfOk result (λ v. AreWithin (length (slots inventory.now)) v.items) }
{
    measures_asked(alloc, inventory, &standing.metrics, &standing.objects)
}
