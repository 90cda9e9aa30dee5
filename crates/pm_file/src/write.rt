//! The text of a report, written into one buffer.
ghost use Rattle.std.specs.Prelude.{◌≡◌, true, map, Ok, IfOk};
ghost use Rattle.serde_json.specs.Written.{compact_text};
ghost use Rattle.pm_form.specs.Form.{text_says};
ghost use Rattle.pm_form.specs.Lists.{list_of};
ghost use Rattle.pm_form.specs.Says.{Appends};
ghost use Rattle.pm_file.specs.Report.{part_content};
ghost use Rattle.pm_file.specs.ReportForm.{part_form, header_form, footer_form, report_form};
ghost use Rattle.pm_file.specs.HeaderOf.{header_of};
ghost use Rattle.pm_file.specs.Says.{content_of};

use crate::report::{Part, Report};
use crate::room::text_room;
use crate::write_groups::write_groups;
use json::Writer;
use pm_base::Blob;
use pm_form::text_token;
use std::alloc::{AllocError, Global};

fn write_part(out: &mut Writer, part: &Part) -> Result<(), AllocError>
    requires { part_form.fits (part_content part.now) ≡ true }
    ensures { Appends result out.old out.new (part_form.tree (part_content part.now)) }
{
    out.begin_object()?;
    out.key("beginTime")?;
    out.u64(part.begin)?;
    out.key("endTime")?;
    out.u64(part.end)?;
    out.key("granularityPeriod")?;
    out.u64(part.end.saturating_sub(part.begin))?;
    out.key("measInfo")?;
    write_groups(out, &part.groups)?;
    out.end_object()
}

fn write_parts(out: &mut Writer, parts: &[Part]) -> Result<(), AllocError>
    requires { (list_of part_form).fits (map part_content parts.now) ≡ true }
    ensures { Appends result out.old out.new ((list_of part_form).tree (map part_content parts.now)) }
{
    out.begin_array()?;
    for part in parts {
        write_part(out, part)?;
    }
    out.end_array()
}

fn write_footer(out: &mut Writer, end: u64) -> Result<(), AllocError>
    ensures { Appends result out.old out.new (footer_form.tree end) }
{
    out.begin_object()?;
    out.key("endTime")?;
    out.u64(end)?;
    out.end_object()
}

fn write_header(out: &mut Writer, begin: u64, job: &[u8], sender: &[u8]) -> Result<(), AllocError>
    requires { header_form.fits (header_of begin job.now sender.now) ≡ true }
    ensures { Appends result out.old out.new (header_form.tree (header_of begin job.now sender.now)) }
{
    out.begin_object()?;
    out.key("beginTime")?;
    out.u64(begin)?;
    out.key("fileFormatVersion")?;
    out.string("PM1")?;
    out.key("jobId")?;
    text_token(out, job)?;
    out.key("senderName")?;
    text_token(out, sender)?;
    out.end_object()
}

fn write_report(out: &mut Writer, report: &Report) -> Result<(), AllocError>
    ensures { Appends result out.old out.new (report_form.tree (content_of report.now)) }
{
    out.begin_object()?;
    out.key("fileFooter")?;
    write_footer(out, report.end)?;
    out.key("fileHeader")?;
    write_header(
        out,
        report.begin,
        report.job.as_bytes(),
        report.sender.as_bytes(),
    )?;
    out.key("measData")?;
    write_parts(out, &report.parts)?;
    out.end_object()
}

impl Report {
    /// The compact text of the report's tree, which reads as the report.
    pub fn to_bytes(&self, alloc: Global) -> Result<Blob, AllocError>
        ensures text { IfOk result (λ text. text ≡ compact_text (report_form.tree (content_of self.now))) }
        ensures back { IfOk result (λ text. text_says report_form text ≡ Ok (content_of self.now)) }
    {
        let buffer = Vec::with_capacity(alloc, text_room(self))?;
        let mut out = Writer::new(buffer);
        write_report(&mut out, self)?;
        Ok(Blob::from_vec(out.into_inner()))
    }
}
