//! The watches of a monitor, by what it keeps of its body.

ghost use Rattle.std.specs.Prelude.{◌≡◌, ◌≤◌, ◌<◌, ◌++◌, ◌∷◌, ◌^◌, [], ℕ, List, length, map, option_to_list, OnOk, IfOk};
ghost use Rattle.pm_inventory.specs.Inventory.{slots};
ghost use Rattle.pm_inventory.specs.Slot.{def_at};
ghost use Rattle.pm_asked.specs.Asked.{margin as counted_margin, measured_objects, terms_of};
ghost use Rattle.pm_jobs.specs.Numbered.{AreBelow};
ghost use Rattle.pm_jobs.specs.Stands.{Keeps, bound_of};
ghost use Rattle.pm_close.specs.Watched.{SlotsWithin, AllWithin, watched_by, watched_on, object_numbers};
ghost use Rattle.pm_close.specs.WatchedOf.{IsLimit, AreLimits, ObjectsBegin, MetricsBegin, WatchesBegin, watched_at, watched_in, watched_all};

use crate::watched::{WatchedMetric, WatchedObject};
use crate::watches::{MetricWatches, Watches};
use pm_history::{Metric, Side};
use pm_inventory::Inventory;
use pm_jobs::{Limit, Standing};
use pm_meas::Kind;
use std::alloc::{AllocError, Global};

// The hysteresis that counts: on a cumulative counter it is 0.
fn margin(kind: Kind, hysteresis: u64) -> u64
    ensures value { result ≡ counted_margin kind hysteresis }
    ensures most { result ≤ hysteresis }
{
    match kind {
        Kind::Cc => 0,
        Kind::Gauge | Kind::Der { n: _ } | Kind::Si => hysteresis,
    }
}

// One metric of the threshold at a place.
fn watched_metric(inventory: &Inventory, threshold: u32, limit: &Limit, metric: u8) -> WatchedMetric
    requires metric { metric < length inventory.now.measures }
    requires limit { IsLimit inventory.now limit.now }
    ensures limits { result.low ≤ result.high }
    ensures metric { result.metric.number ≡ metric }
    ensures watched { (objects : List ℕ) → watched_on result (measured_objects inventory.now objects (def_at inventory.now.measures metric).class)
        ≡ watched_at inventory.now objects threshold (bound_of limit.now) (metric, def_at inventory.now.measures metric) }
{
    let def = inventory.catalogue().def(metric);
    let margin = margin(def.kind, limit.hysteresis);
    WatchedMetric {
        threshold,
        metric: Metric {
            number: metric,
            reduce: def.reduce,
        },
        value: limit.value,
        hysteresis: limit.hysteresis,
        high: limit.value + margin,
        low: limit.value - margin,
        up: limit.up,
        down: limit.down,
    }
}

// The object with an empty value sequence, if it is of the metric's class.
fn watched_object(inventory: &Inventory, of: &WatchedMetric, object: u16) -> Option<WatchedObject>
    requires limits { of.now.low ≤ of.now.high }
    requires metric { of.now.metric.number < length inventory.now.measures }
    requires object { object < length inventory.now.objects }
    ensures numbers { object_numbers (option_to_list result)
        ≡ measured_objects inventory.now (object ∷ []) (def_at inventory.now.measures of.now.metric.number).class }
    ensures within { SlotsWithin (length (slots inventory.now)) (option_to_list result) }
    ensures begins { (objects : List ℕ) → ObjectsBegin inventory.now (watched_on of.now objects) (option_to_list result) }
{
    let slot = inventory.slot(object, of.metric.number)?;
    Some(WatchedObject::new(of, object, u32::from(slot)))
}

// One more, if there is one.
fn push_some(
    watched: &mut Vec<WatchedObject>,
    object: Option<WatchedObject>,
) -> Result<(), AllocError>
    ensures { OnOk result (watched.new.items ≡ watched.old.items ++ option_to_list object) }
{
    if let Some(object) = object {
        watched.push(object)?;
    }
    Ok(())
}

// Those of the objects that are of the metric's class.
fn watched_objects(
    alloc: Global,
    inventory: &Inventory,
    of: &WatchedMetric,
    objects: &[u16],
) -> Result<Vec<WatchedObject>, AllocError>
    requires limits { of.now.low ≤ of.now.high }
    requires metric { of.now.metric.number < length inventory.now.measures }
    requires objects { AreBelow (length inventory.now.objects) objects.now }
    ensures numbers { IfOk result (λ v. object_numbers v.items
        ≡ measured_objects inventory.now objects.now (def_at inventory.now.measures of.now.metric.number).class) }
    ensures within { IfOk result (λ v. SlotsWithin (length (slots inventory.now)) v.items) }
    ensures begin { IfOk result (λ v. (numbers : List ℕ) → ObjectsBegin inventory.now (watched_on of.now numbers) v.items) }
{
    let mut watched = Vec::new(alloc);
    for k in 0..objects.len() {
        let object = watched_object(inventory, of, objects[k]);
        push_some(&mut watched, object)?;
    }
    Ok(watched)
}

// The watches of one metric of the threshold at a place.
fn metric_watches(
    alloc: Global,
    inventory: &Inventory,
    threshold: u32,
    limit: &Limit,
    metric: u8,
    objects: &[u16],
) -> Result<MetricWatches, AllocError>
    requires metric { metric < length inventory.now.measures }
    requires limit { IsLimit inventory.now limit.now }
    requires objects { AreBelow (length inventory.now.objects) objects.now }
    ensures watched { IfOk result (λ m. watched_by m ≡ watched_at inventory.now objects.now threshold (bound_of limit.now) (metric, def_at inventory.now.measures metric)) }
    ensures within { IfOk result (λ m. SlotsWithin (length (slots inventory.now)) m.objects.items) }
    ensures begin { IfOk result (λ m. ObjectsBegin inventory.now (watched_by m) m.objects.items) }
{
    let of = watched_metric(inventory, threshold, limit, metric);
    let objects = watched_objects(alloc, inventory, &of, objects)?;
    Ok(MetricWatches { of, objects })
}

// Puts the watches of all metrics of the threshold at a place behind those of earlier thresholds.
fn add_limit(
    alloc: Global,
    inventory: &Inventory,
    metrics: &mut Vec<MetricWatches>,
    threshold: u32,
    limit: &Limit,
    objects: &[u16],
) -> Result<(), AllocError>
    requires limit { IsLimit inventory.now limit.now }
    requires objects { AreBelow (length inventory.now.objects) objects.now }
    requires begin { MetricsBegin inventory.now metrics.old.items }
    requires within { AllWithin (length (slots inventory.now)) metrics.old.items }
    ensures watched { OnOk result (map watched_by metrics.new.items
        ≡ map watched_by metrics.old.items ++ watched_in inventory.now objects.now (threshold, bound_of limit.now)) }
    ensures begin { OnOk result (MetricsBegin inventory.now metrics.new.items) }
    ensures within { OnOk result (AllWithin (length (slots inventory.now)) metrics.new.items) }
{
    for k in 0..limit.metrics.len() {
        let metric = limit.metrics[k];
        metrics.push(metric_watches(alloc, inventory, threshold, limit, metric, objects)?)?;
    }
    Ok(())
}

// The watches of all thresholds.
fn limits_watches(
    alloc: Global,
    inventory: &Inventory,
    limits: &[Limit],
    objects: &[u16],
) -> Result<Vec<MetricWatches>, AllocError>
    requires few { length limits.now < 2 ^ 32 }
    requires limits { AreLimits inventory.now limits.now }
    requires objects { AreBelow (length inventory.now.objects) objects.now }
    ensures watched { IfOk result (λ v. map watched_by v.items ≡ watched_all inventory.now objects.now (map bound_of limits.now)) }
    ensures begin { IfOk result (λ v. MetricsBegin inventory.now v.items) }
    ensures within { IfOk result (λ v. AllWithin (length (slots inventory.now)) v.items) }
{
    let mut metrics = Vec::new(alloc);
    for k in 0..limits.len() {
        add_limit(
            alloc,
            inventory,
            &mut metrics,
            k as u32,
            &limits[k],
            objects,
        )?;
    }
    Ok(metrics)
}

/// The watches of a monitor that stands, each of an empty value sequence: by threshold, by metric in catalogue order, on
/// the objects of the metric's class in tree order. On a counter the hysteresis is 0.
pub fn watches_of(
    alloc: Global,
    inventory: &Inventory,
    monitor: &Standing,
) -> Result<Watches, AllocError>
    requires { Keeps inventory.now Side.Monitor monitor.now }
    ensures begin { IfOk result (λ w. WatchesBegin inventory.now (terms_of inventory.now Side.Monitor monitor.now.body).watched w.metrics.items) }
    ensures within { IfOk result (λ w. AllWithin (length (slots inventory.now)) w.metrics.items) }
{
    let metrics = limits_watches(alloc, inventory, &monitor.limits, &monitor.objects)?;
    Ok(Watches { metrics })
}
