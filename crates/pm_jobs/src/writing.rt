//! The canonical texts of bodies: all keys, in byte order.
ghost use Rattle.std.specs.Prelude.{◌≡◌, IfOk, Some, map, string_bytes};
ghost use Rattle.serde_json.specs.Data.{array, string};
ghost use Rattle.pm_form.specs.Says.{Appends};
ghost use Rattle.pm_asked.specs.Body.{text_items, state_text, directions_text, job_tree, job_text, threshold_tree, threshold_items, monitor_tree, monitor_text, IsJobBody, IsMonitorBody};
ghost use Rattle.pm_asked.specs.BodyReading.{job_body, monitor_body};
ghost use Rattle.pm_jobs.specs.Content.{is_unlocked, directions_content, job_content, threshold_content, monitor_content};

use crate::{Directions, JobBody, MonitorBody, State, Threshold};
use json::Writer;
use pm_base::Blob;
use std::alloc::{AllocError, Global};

pub(crate) fn state_word(state: State) -> &'static str
    ensures { result.now ≡ state_text (is_unlocked state) }
{
    match state {
        State::Locked => "LOCKED",
        State::Unlocked => "UNLOCKED",
    }
}

fn directions_word(directions: Directions) -> &'static str
    ensures { result.now ≡ directions_text (directions_content directions) }
{
    match directions {
        Directions::Up => "UP",
        Directions::Down => "DOWN",
        Directions::UpAndDown => "UP_AND_DOWN",
    }
}

pub(crate) fn write_texts(out: &mut Writer, texts: &[String]) -> Result<(), AllocError>
    ensures { Appends result out.old out.new (array (text_items (map string_bytes texts.now))) }
{
    out.begin_array()?;
    for text in texts {
        out.string(text.as_str())?;
    }
    out.end_array()
}

fn write_job(out: &mut Writer, body: &JobBody) -> Result<(), AllocError>
    ensures { Appends result out.old out.new (job_tree (job_content body.now)) }
{
    out.begin_object()?;
    out.key("administrativeState")?;
    out.string(state_word(body.state))?;
    out.key("granularityPeriod")?;
    out.u64(u64::from(body.granularity))?;
    out.key("objectInstances")?;
    write_texts(out, &body.objects)?;
    out.key("performanceMetrics")?;
    write_texts(out, &body.metrics)?;
    out.key("reportingPeriod")?;
    out.u64(u64::from(body.reporting))?;
    out.key("rootObjectInstances")?;
    write_texts(out, &body.roots)?;
    out.end_object()
}

fn write_threshold(out: &mut Writer, threshold: &Threshold) -> Result<(), AllocError>
    ensures { Appends result out.old out.new (threshold_tree (threshold_content threshold.now)) }
{
    out.begin_object()?;
    out.key("hysteresis")?;
    out.u64(threshold.hysteresis)?;
    out.key("performanceMetrics")?;
    write_texts(out, &threshold.metrics)?;
    out.key("thresholdDirection")?;
    out.string(directions_word(threshold.directions))?;
    out.key("thresholdValue")?;
    out.u64(threshold.value)?;
    out.end_object()
}

pub(crate) fn write_thresholds(out: &mut Writer, thresholds: &[Threshold]) -> Result<(), AllocError>
    ensures { Appends result out.old out.new (array (threshold_items (map threshold_content thresholds.now))) }
{
    out.begin_array()?;
    for threshold in thresholds {
        write_threshold(out, threshold)?;
    }
    out.end_array()
}

fn write_monitor(out: &mut Writer, body: &MonitorBody) -> Result<(), AllocError>
    ensures { Appends result out.old out.new (monitor_tree (monitor_content body.now)) }
{
    out.begin_object()?;
    out.key("administrativeState")?;
    out.string(state_word(body.state))?;
    out.key("monitorGranularityPeriod")?;
    out.u64(u64::from(body.granularity))?;
    out.key("objectInstances")?;
    write_texts(out, &body.objects)?;
    out.key("rootObjectInstances")?;
    write_texts(out, &body.roots)?;
    out.key("thresholdInfoList")?;
    write_thresholds(out, &body.thresholds)?;
    out.end_object()
}

impl JobBody {
    /// The canonical text.
    pub fn to_bytes(&self, alloc: Global) -> Result<Blob, AllocError>
        ensures text { IfOk result (λ text. text ≡ job_text (job_content self.now)) }

        // It says the body.
        ensures back { IsJobBody (job_content self.now) → IfOk result (λ text. job_body text ≡ Some (job_content self.now)) }
    {
        let mut out = Writer::new(Vec::new(alloc));
        write_job(&mut out, self)?;
        Ok(Blob::from_vec(out.into_inner()))
    }
}

impl MonitorBody {
    /// The canonical text.
    pub fn to_bytes(&self, alloc: Global) -> Result<Blob, AllocError>
        ensures text { IfOk result (λ text. text ≡ monitor_text (monitor_content self.now)) }

        // It says the body.
        ensures back { IsMonitorBody (monitor_content self.now) → IfOk result (λ text. monitor_body text ≡ Some (monitor_content self.now)) }
    {
        let mut out = Writer::new(Vec::new(alloc));
        write_monitor(&mut out, self)?;
        Ok(Blob::from_vec(out.into_inner()))
    }
}
