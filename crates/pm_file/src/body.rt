//! All of a report's tree, before it is known whether its values agree.
ghost use Rattle.serde_json.specs.View.{view};
ghost use Rattle.pm_form.specs.Says.{Says};
ghost use Rattle.pm_file.specs.ReportForm.{body_form};
ghost use Rattle.pm_file.specs.Body.{body_content};

use crate::read::{ReadHeader, ReadPart, read_footer, read_header, read_parts};
use pm_form::{ReadError, Refusal, values_of};
use serde_json::Value;
use std::alloc::Global;

/// A report of whose values it is not known whether they agree.
#[derive(Drop)]
pub(crate) struct ReadReport {
    pub(crate) header: ReadHeader,
    pub(crate) end: u64,
    pub(crate) parts: Vec<ReadPart>,
}

/// What the tree says.
#[tactic(auto, unfolding(crate::specs::ReportForm::body_form))]
pub(crate) fn read_body(alloc: Global, value: &Value) -> Result<ReadReport, ReadError>
    ensures { Says result body_content (body_form.reads (view value.now)) }
{
    let mut values = values_of(value, &["fileFooter", "fileHeader", "measData"])?;
    let Some(footer) = values.next() else {
        return Err(ReadError::Refused(Refusal::WrongKeys));
    };
    let end = read_footer(footer)?;
    let Some(header) = values.next() else {
        return Err(ReadError::Refused(Refusal::WrongKeys));
    };
    let header = read_header(alloc, header)?;
    let Some(parts) = values.next() else {
        return Err(ReadError::Refused(Refusal::WrongKeys));
    };
    let parts = read_parts(alloc, parts)?;
    Ok(ReadReport { header, end, parts })
}
