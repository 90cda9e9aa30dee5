//! The report of a tree.
ghost use Rattle.std.specs.Prelude.{ℕ, map};
ghost use Rattle.serde_json.specs.View.{view};
ghost use Rattle.pm_form.specs.Lists.{list_of};
ghost use Rattle.pm_form.specs.Says.{Says};
ghost use Rattle.pm_file.specs.ReportForm.{part_form, header_form, footer_form};

use crate::names::element_name_in;
use crate::read_groups::read_groups;
use crate::report::Part;
use pm_base::{LAST_MOMENT, Text};
use pm_form::{ReadError, Refusal, fixed_in, items_of, job_id_in, values_of, whole_in};
use serde_json::Value;
use std::alloc::Global;

/// A part, and the granularity period that the text says of it.
#[derive(Drop)]
pub(crate) struct ReadPart {
    pub(crate) part: Part,
    pub(crate) granularity: u64,
}

/// What the header says.
#[derive(Drop)]
pub(crate) struct ReadHeader {
    pub(crate) begin: u64,
    pub(crate) job: Text,
    pub(crate) sender: Text,
}

ghost use Rattle.pm_file.specs.Reading.{read_part_content, header_content};

#[tactic(auto, unfolding(crate::specs::ReportForm::part_form))]
fn read_part(alloc: Global, value: &Value) -> Result<ReadPart, ReadError>
    ensures { Says result read_part_content (part_form.reads (view value.now)) }
{
    let mut values = values_of(
        value,
        &["beginTime", "endTime", "granularityPeriod", "measInfo"],
    )?;
    let Some(begin) = values.next() else {
        return Err(ReadError::Refused(Refusal::WrongKeys));
    };
    let begin = whole_in(begin, LAST_MOMENT)?;
    let Some(end) = values.next() else {
        return Err(ReadError::Refused(Refusal::WrongKeys));
    };
    let end = whole_in(end, LAST_MOMENT)?;
    let Some(granularity) = values.next() else {
        return Err(ReadError::Refused(Refusal::WrongKeys));
    };
    let granularity = whole_in(granularity, u64::MAX)?;
    let Some(groups) = values.next() else {
        return Err(ReadError::Refused(Refusal::WrongKeys));
    };
    let groups = read_groups(alloc, groups)?;
    Ok(ReadPart {
        part: Part { begin, end, groups },
        granularity,
    })
}

/// The parts of a report.
pub(crate) fn read_parts(alloc: Global, value: &Value) -> Result<Vec<ReadPart>, ReadError>
    ensures { Says result (λ v. map read_part_content v.items) ((list_of part_form).reads (view value.now)) }
{
    let list = items_of(value)?;
    let mut parts = Vec::new(alloc);
    for item in list {
        let part = read_part(alloc, item)?;
        if parts.push(part).is_err() {
            return Err(ReadError::Memory);
        }
    }
    Ok(parts)
}

/// The header of a report.
#[tactic(auto, unfolding(crate::specs::ReportForm::header_form))]
pub(crate) fn read_header(alloc: Global, value: &Value) -> Result<ReadHeader, ReadError>
    ensures { Says result header_content (header_form.reads (view value.now)) }
{
    let mut values = values_of(
        value,
        &["beginTime", "fileFormatVersion", "jobId", "senderName"],
    )?;
    let Some(begin) = values.next() else {
        return Err(ReadError::Refused(Refusal::WrongKeys));
    };
    let begin = whole_in(begin, LAST_MOMENT)?;
    let Some(version) = values.next() else {
        return Err(ReadError::Refused(Refusal::WrongKeys));
    };
    fixed_in(version, "PM1")?;
    let Some(job) = values.next() else {
        return Err(ReadError::Refused(Refusal::WrongKeys));
    };
    let job = job_id_in(alloc, job)?;
    let Some(sender) = values.next() else {
        return Err(ReadError::Refused(Refusal::WrongKeys));
    };
    let sender = element_name_in(alloc, sender)?;
    Ok(ReadHeader { begin, job, sender })
}

/// The end of a report.
#[tactic(auto, unfolding(crate::specs::ReportForm::footer_form))]
pub(crate) fn read_footer(value: &Value) -> Result<u64, ReadError>
    ensures { Says result (λ (n : ℕ). n) (footer_form.reads (view value.now)) }
{
    let mut values = values_of(value, &["endTime"])?;
    let Some(end) = values.next() else {
        return Err(ReadError::Refused(Refusal::WrongKeys));
    };
    whole_in(end, LAST_MOMENT)
}
