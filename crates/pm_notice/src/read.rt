//! What the text of a notice says.
ghost use Rattle.std.specs.Prelude.{◌≡◌, ℕ, List, true};
ghost use Rattle.serde_json.specs.View.{view};
ghost use Rattle.pm_form.specs.Form.{text_says};
ghost use Rattle.pm_form.specs.Says.{Says};
ghost use Rattle.pm_form.specs.Values.{text};
ghost use Rattle.pm_file.specs.ReportForm.{object_name};
ghost use Rattle.pm_notice.specs.NoticeForm.{is_direction, direction_text, file_ready_form, crossing_form, notice_form};
ghost use Rattle.pm_notice.specs.Told.{file_content, crossing_content, told_content};

use crate::listed::read_single;
use crate::{Crossed, Told, ToldCrossing, ToldFile};
use pm_base::{LAST_MOMENT, Text};
use pm_dn::Dn;
use pm_form::{
    ReadError, Refusal, copied_if, fixed_in, job_id_in, json_tree, measure_name_in, text_in,
    values_of, whole_in,
};
use serde_json::Value;
use std::alloc::Global;
use std::collections::btree_map::Values;

/// Whether the bytes are a distinguished name.
fn is_object_name(bytes: &[u8]) -> bool
    ensures { result ≡ object_name bytes.now }
{
    Dn::check(bytes).is_ok()
}

fn object_name_in(alloc: Global, value: &Value) -> Result<Text, ReadError>
    ensures { Says result (λ (s : List ℕ). s) ((text object_name).reads (view value.now)) }
{
    let bytes = text_in(value)?;
    copied_if(alloc, bytes, is_object_name(bytes))
}

/// Whether a crossing is upward.
fn direction_in(value: &Value) -> Result<bool, ReadError>
    ensures { Says result direction_text ((text is_direction).reads (view value.now)) }
{
    let bytes = text_in(value)?;
    if bytes == b"UP".as_slice() {
        return Ok(true);
    }
    if bytes == b"DOWN".as_slice() {
        return Ok(false);
    }
    Err(ReadError::Refused(Refusal::WrongType))
}

#[tactic(auto, unfolding(crate::specs::NoticeForm::file_ready_form))]
fn file_ready_in(alloc: Global, value: &Value) -> Result<ToldFile, ReadError>
    ensures { Says result file_content (file_ready_form.reads (view value.now)) }
{
    let mut values = values_of(
        value,
        &[
            "eventTime",
            "fileInfoList",
            "notificationId",
            "notificationType",
            "objectInstance",
        ],
    )?;
    let Some(event) = values.next() else {
        return Err(ReadError::Refused(Refusal::WrongKeys));
    };
    let event = whole_in(event, LAST_MOMENT)?;
    let Some(file) = values.next() else {
        return Err(ReadError::Refused(Refusal::WrongKeys));
    };
    let file = read_single(alloc, file)?;
    let Some(number) = values.next() else {
        return Err(ReadError::Refused(Refusal::WrongKeys));
    };
    let number = whole_in(number, u64::MAX)?;
    let Some(kind) = values.next() else {
        return Err(ReadError::Refused(Refusal::WrongKeys));
    };
    fixed_in(kind, "notifyFileReady")?;
    let Some(element) = values.next() else {
        return Err(ReadError::Refused(Refusal::WrongKeys));
    };
    let element = object_name_in(alloc, element)?;
    Ok(ToldFile {
        event,
        file,
        number,
        element,
    })
}

#[tactic(auto, unfolding(crate::specs::NoticeForm::crossing_form))]
fn crossing_in(alloc: Global, value: &Value) -> Result<ToldCrossing, ReadError>
    ensures { Says result crossing_content (crossing_form.reads (view value.now)) }
{
    let mut values = values_of(
        value,
        &[
            "eventTime",
            "hysteresis",
            "monitorId",
            "notificationId",
            "notificationType",
            "objectInstance",
            "observedValue",
            "performanceMetric",
            "thresholdDirection",
            "thresholdValue",
        ],
    )?;
    let Some(end) = values.next() else {
        return Err(ReadError::Refused(Refusal::WrongKeys));
    };
    let end = whole_in(end, LAST_MOMENT)?;
    let Some(hysteresis) = values.next() else {
        return Err(ReadError::Refused(Refusal::WrongKeys));
    };
    let hysteresis = whole_in(hysteresis, u64::MAX)?;
    let Some(monitor) = values.next() else {
        return Err(ReadError::Refused(Refusal::WrongKeys));
    };
    let monitor = job_id_in(alloc, monitor)?;
    let Some(number) = values.next() else {
        return Err(ReadError::Refused(Refusal::WrongKeys));
    };
    let number = whole_in(number, u64::MAX)?;
    let Some(kind) = values.next() else {
        return Err(ReadError::Refused(Refusal::WrongKeys));
    };
    fixed_in(kind, "notifyThresholdCrossing")?;
    let Some(object) = values.next() else {
        return Err(ReadError::Refused(Refusal::WrongKeys));
    };
    let object = object_name_in(alloc, object)?;
    let Some(observed) = values.next() else {
        return Err(ReadError::Refused(Refusal::WrongKeys));
    };
    let value = whole_in(observed, u64::MAX)?;
    let Some(metric) = values.next() else {
        return Err(ReadError::Refused(Refusal::WrongKeys));
    };
    let metric = measure_name_in(alloc, metric)?;
    let Some(direction) = values.next() else {
        return Err(ReadError::Refused(Refusal::WrongKeys));
    };
    let up = direction_in(direction)?;
    let Some(threshold) = values.next() else {
        return Err(ReadError::Refused(Refusal::WrongKeys));
    };
    let threshold = whole_in(threshold, u64::MAX)?;
    let crossing = Crossed {
        end,
        hysteresis,
        monitor,
        object,
        value,
        metric,
        up,
        threshold,
    };
    Ok(ToldCrossing { number, crossing })
}

#[tactic(auto, unfolding(crate::specs::NoticeForm::notice_form))]
fn notice_in(alloc: Global, value: &Value) -> Result<Told, ReadError>
    ensures { Says result told_content (notice_form.reads (view value.now)) }
{
    match file_ready_in(alloc, value) {
        Ok(file) => Ok(Told::FileReady(file)),
        Err(ReadError::Memory) => Err(ReadError::Memory),
        Err(ReadError::Refused(_)) => Ok(Told::Crossing(crossing_in(alloc, value)?)),
    }
}

/// What the text of a notice says, or the first refusal. What says neither is refused as a crossing is.
pub fn read_notice(alloc: Global, bytes: &[u8]) -> Result<Told, ReadError>
    ensures { Says result told_content (text_says notice_form bytes.now) }
{
    let tree = json_tree(alloc, bytes)?;
    notice_in(alloc, &tree)
}
