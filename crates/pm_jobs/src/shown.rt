//! The texts of bodies as they are shown: all keys, in byte order.
ghost use Rattle.std.specs.Prelude.{◌≡◌, true, IfOk};
ghost use Rattle.serde_json.specs.Written.{compact_text};
ghost use Rattle.pm_form.specs.Names.{job_id};
ghost use Rattle.pm_form.specs.Says.{Appends};
ghost use Rattle.pm_jobs.specs.Content.{job_content, monitor_content};
ghost use Rattle.pm_jobs.specs.Shown.{job_shown, monitor_shown};

use crate::writing::{state_word, write_texts, write_thresholds};
use crate::{JobBody, MonitorBody};
use json::Writer;
use pm_base::Blob;
use pm_form::text_token;
use std::alloc::{AllocError, Global};

fn write_job_shown(out: &mut Writer, id: &[u8], body: &JobBody) -> Result<(), AllocError>
    requires { job_id id.now ≡ true }
    ensures { Appends result out.old out.new (job_shown id.now (job_content body.now)) }
{
    out.begin_object()?;
    out.key("administrativeState")?;
    out.string(state_word(body.state))?;
    out.key("granularityPeriod")?;
    out.u64(u64::from(body.granularity))?;
    out.key("jobId")?;
    text_token(out, id)?;
    out.key("objectInstances")?;
    write_texts(out, &body.objects)?;
    out.key("operationalState")?;
    out.string("ENABLED")?;
    out.key("performanceMetrics")?;
    write_texts(out, &body.metrics)?;
    out.key("reportingPeriod")?;
    out.u64(u64::from(body.reporting))?;
    out.key("rootObjectInstances")?;
    write_texts(out, &body.roots)?;
    out.end_object()
}

fn write_monitor_shown(out: &mut Writer, id: &[u8], body: &MonitorBody) -> Result<(), AllocError>
    requires { job_id id.now ≡ true }
    ensures { Appends result out.old out.new (monitor_shown id.now (monitor_content body.now)) }
{
    out.begin_object()?;
    out.key("administrativeState")?;
    out.string(state_word(body.state))?;
    out.key("monitorGranularityPeriod")?;
    out.u64(u64::from(body.granularity))?;
    out.key("monitorId")?;
    text_token(out, id)?;
    out.key("objectInstances")?;
    write_texts(out, &body.objects)?;
    out.key("operationalState")?;
    out.string("ENABLED")?;
    out.key("rootObjectInstances")?;
    write_texts(out, &body.roots)?;
    out.key("thresholdInfoList")?;
    write_thresholds(out, &body.thresholds)?;
    out.end_object()
}

/// A job's body, of this id and as it is.
pub(crate) fn job_shown(alloc: Global, id: &[u8], body: &JobBody) -> Result<Blob, AllocError>
    requires { job_id id.now ≡ true }
    ensures { IfOk result (λ text. text ≡ compact_text (job_shown id.now (job_content body.now))) }
{
    let mut out = Writer::new(Vec::new(alloc));
    write_job_shown(&mut out, id, body)?;
    Ok(Blob::from_vec(out.into_inner()))
}

/// A monitor's body, of this id and as it is.
pub(crate) fn monitor_shown(
    alloc: Global,
    id: &[u8],
    body: &MonitorBody,
) -> Result<Blob, AllocError>
    requires { job_id id.now ≡ true }
    ensures { IfOk result (λ text. text ≡ compact_text (monitor_shown id.now (monitor_content body.now))) }
{
    let mut out = Writer::new(Vec::new(alloc));
    write_monitor_shown(&mut out, id, body)?;
    Ok(Blob::from_vec(out.into_inner()))
}
