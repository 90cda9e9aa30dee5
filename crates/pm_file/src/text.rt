//! The report that a text says.
ghost use Rattle.std.specs.Prelude.{◌≡◌, true, map, Ok, IfOk, IfSome, MatchResult};
ghost use Rattle.serde_json.specs.View.{view};
ghost use Rattle.pm_form.specs.Form.{text_says};
ghost use Rattle.pm_form.specs.Says.{Says};
ghost use Rattle.pm_file.specs.ReportForm.{report_form};
ghost use Rattle.pm_file.specs.Permitted.{is_permitted};
ghost use Rattle.pm_file.specs.Body.{body_content};
ghost use Rattle.pm_file.specs.Says.{content_of, error_of, IsReading};

use crate::agreement::report_agrees;
use crate::body::{ReadReport, read_body};
use crate::error::ReportError;
use crate::read::{ReadHeader, ReadPart};
use crate::report::{Part, Report};
use crate::usual::usual_text;
use pm_form::{ReadError, Refusal, json_tree};
use serde_json::Value;
use std::alloc::{AllocError, Global};

// The parts alone, once it is known that what the text says of their granularity periods is their lengths.
fn parts_of(alloc: Global, parts: Vec<ReadPart>) -> Result<Vec<Part>, AllocError>
    ensures { IfOk result (λ v. v.items ≡ map (λ p. p.part) parts.items) }
{
    parts.into_iter().map(|read| read.part).collect(alloc)
}

fn report_of(alloc: Global, body: ReadReport) -> Result<Report, ReadError>
    requires { is_permitted (body_content body) ≡ true }
    ensures { MatchResult result (λ report. content_of report ≡ body_content body) (λ e. e ≡ ReadError.Memory) }
{
    let ReadReport { header, end, parts } = body;
    let ReadHeader { begin, job, sender } = header;
    match parts_of(alloc, parts) {
        Ok(parts) => Ok(Report {
            job,
            sender,
            begin,
            end,
            parts,
        }),
        Err(_) => Err(ReadError::Memory),
    }
}

#[tactic(auto, unfolding(crate::specs::ReportForm::report_form))]
fn report_in(alloc: Global, value: &Value) -> Result<Report, ReadError>
    ensures { Says result content_of (report_form.reads (view value.now)) }
{
    let body = read_body(alloc, value)?;
    if !report_agrees(&body.header, body.end, &body.parts) {
        return Err(ReadError::Refused(Refusal::Disagrees));
    }
    report_of(alloc, body)
}

fn report_of_text(alloc: Global, bytes: &[u8]) -> Result<Report, ReadError>
    ensures { Says result content_of (text_says report_form bytes.now) }
{
    let tree = json_tree(alloc, bytes)?;
    report_in(alloc, &tree)
}

// The report of a text that is written in the usual way.
fn usual_report(alloc: Global, bytes: &[u8]) -> Option<Report>
    ensures { IfSome result (λ report. text_says report_form bytes.now ≡ Ok (content_of report)) }
{
    let body = usual_text(alloc, bytes)?;
    if !report_agrees(&body.header, body.end, &body.parts) {
        return None;
    }
    match report_of(alloc, body) {
        Ok(report) => Some(report),
        Err(_) => None,
    }
}

fn report_error(error: ReadError) -> ReportError
    ensures { result ≡ error_of error }
{
    match error {
        ReadError::Refused(Refusal::NotJson) => ReportError::R1,
        ReadError::Refused(Refusal::WrongType) => ReportError::R3,
        ReadError::Refused(Refusal::WrongKeys) => ReportError::R2,
        ReadError::Refused(Refusal::WrongNumber) => ReportError::R4,
        ReadError::Refused(Refusal::Disagrees) => ReportError::R5,
        ReadError::Memory => ReportError::Memory,
    }
}

impl Report {
    /// The report that a JSON text says, or the first refusal.
    pub fn read(alloc: Global, bytes: &[u8]) -> Result<Report, ReportError>
        ensures { IsReading result (text_says report_form bytes.now) }
    {
        if let Some(report) = usual_report(alloc, bytes) {
            return Ok(report);
        }
        match report_of_text(alloc, bytes) {
            Ok(report) => Ok(report),
            Err(error) => Err(report_error(error)),
        }
    }
}
