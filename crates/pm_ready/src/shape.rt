//! What the reports of a job are made of.
ghost use Rattle.std.specs.Prelude.{◌≡◌, ◌<◌, ◌≤◌, ◌↔◌, ◌*◌, ◌&&◌, true, false, length, IsTrue, IfOk};
ghost use Rattle.std.specs.List.{list_all};
ghost use Rattle.pm_history.specs.Terms as terms;
ghost use Rattle.pm_jobs.specs.Numbered.{AreBelow};
ghost use Rattle.pm_jobs.specs.Rules.{is_period, is_reporting};
ghost use Rattle.pm_file.specs.Agreement.{is_some_list};
ghost use Rattle.pm_ready.specs.Measured.{measured_of};

use crate::element::managed_element;
use crate::measured::{Measured, measured_on};
use pm_form::is_job_id;
use pm_inventory::Inventory;
use pm_jobs::Standing;
use std::alloc::{AllocError, Global};

/// What the reports of a job are made of. Periods are in ticks.
#[derive(Drop)]
pub(crate) struct Shape {
    pub(crate) granularity: u64,
    pub(crate) parts: u64,
    pub(crate) reporting: u64,
    pub(crate) measured: Vec<Measured>,
    ghost product: { parts * granularity ≡ reporting },
    ghost some_ticks: { 0 < reporting },
    ghost day: { reporting ≤ 1440 },
}

fn are_metrics(count: u8, metrics: &[u8]) -> bool
    ensures { IsTrue result ↔ AreBelow count metrics.now }
{
    metrics.iter().all(|metric| *metric < count)
}

fn are_objects(count: u16, objects: &[u16]) -> bool
    ensures { IsTrue result ↔ AreBelow count objects.now }
{
    objects.iter().all(|object| *object < count)
}

// Whether each is of some objects.
fn have_objects(measured: &[Measured]) -> bool
    ensures { result ≡ list_all (λ (m : Measured). is_some_list m.objects.items) measured.now }
{
    measured.iter().all(|m| !m.objects.is_empty())
}

fn is_period(seconds: u32) -> bool
    ensures { result ≡ is_period seconds }
{
    seconds == 60 || seconds == 300 || seconds == 900 || seconds == 1_800 || seconds == 3_600
}

fn is_reporting(granularity: u32, minutes: u32) -> bool
    requires { 0 < granularity }
    ensures { result ≡ is_reporting granularity minutes }
{
    0 < minutes && 1_440 % minutes == 0 && (60 * u64::from(minutes)) % u64::from(granularity) == 0
}

impl Shape {
    ghost use Rattle.pm_ready.specs.Shape.{IsShapeOf};

    /// That of a job; none of one whose reports could not be written.
    pub(crate) fn of(
        alloc: Global,
        inventory: &Inventory,
        job: &Standing,
    ) -> Result<Option<Shape>, AllocError>
        ensures { IfOk result (IsShapeOf inventory.now job.now) }
    {
        let _element = managed_element(inventory);
        if !is_job_id(job.id.as_bytes()) {
            return Ok(None);
        }
        if !is_period(job.granularity) {
            return Ok(None);
        }
        if !is_reporting(job.granularity, job.reporting) {
            return Ok(None);
        }
        if !are_metrics(inventory.catalogue().len(), &job.metrics) {
            return Ok(None);
        }
        if !are_objects(inventory.tree().len(), &job.objects) {
            return Ok(None);
        }
        let measured = measured_on(alloc, inventory, &job.metrics, &job.objects)?;
        if measured.is_empty() {
            return Ok(None);
        }
        if !have_objects(&measured) {
            return Ok(None);
        }
        let granularity = u64::from(job.granularity / 60);
        let reporting = u64::from(job.reporting);
        Ok(Some(Shape {
            granularity,
            parts: reporting / granularity,
            reporting,
            measured,
        }))
    }
}
