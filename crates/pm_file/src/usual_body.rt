//! The parts, header and footer of a text that is written in the usual way.
ghost use Rattle.std.specs.Prelude.{map, IfSome};
ghost use Rattle.pm_form.specs.Lists.{list_of};
ghost use Rattle.pm_file.specs.ReportForm.{part_form, header_form, footer_form, body_form};
ghost use Rattle.pm_file.specs.Reading.{read_part_content, header_content};
ghost use Rattle.pm_file.specs.Body.{body_content};
ghost use Rattle.pm_file.specs.Usual.{Leads};

use crate::body::ReadReport;
use crate::read::{ReadHeader, ReadPart};
use crate::report::Part;
use crate::usual_groups::usual_groups;
use crate::usual_names::{usual_element, usual_job, usual_length, usual_moment};
use crate::usual_tokens::{take_array, take_end, take_key, take_object, take_word};
use json::Reader;
use std::alloc::Global;

fn usual_part(alloc: Global, reader: &mut Reader<'_>) -> Option<ReadPart>
    ensures { IfSome result (λ p. Leads part_form (read_part_content p) reader.old reader.new) }
{
    take_object(reader)?;
    take_key(reader, "beginTime")?;
    let begin = usual_moment(reader)?;
    take_key(reader, "endTime")?;
    let end = usual_moment(reader)?;
    take_key(reader, "granularityPeriod")?;
    let granularity = usual_length(reader)?;
    take_key(reader, "measInfo")?;
    let groups = usual_groups(alloc, reader)?;
    take_end(reader)?;
    Some(ReadPart {
        part: Part { begin, end, groups },
        granularity,
    })
}

fn usual_parts(alloc: Global, reader: &mut Reader<'_>) -> Option<Vec<ReadPart>>
    ensures { IfSome result (λ v. Leads (list_of part_form) (map read_part_content v.items) reader.old reader.new) }
{
    take_array(reader)?;
    let mut parts = Vec::new(alloc);
    while !reader.take_end_array() {
        let part = usual_part(alloc, reader)?;
        if parts.push(part).is_err() {
            return None;
        }
    }
    Some(parts)
}

fn usual_header(alloc: Global, reader: &mut Reader<'_>) -> Option<ReadHeader>
    ensures { IfSome result (λ h. Leads header_form (header_content h) reader.old reader.new) }
{
    take_object(reader)?;
    take_key(reader, "beginTime")?;
    let begin = usual_moment(reader)?;
    take_key(reader, "fileFormatVersion")?;
    take_word(reader, "PM1")?;
    take_key(reader, "jobId")?;
    let job = usual_job(alloc, reader)?;
    take_key(reader, "senderName")?;
    let sender = usual_element(alloc, reader)?;
    take_end(reader)?;
    Some(ReadHeader { begin, job, sender })
}

fn usual_footer(reader: &mut Reader<'_>) -> Option<u64>
    ensures { IfSome result (λ n. Leads footer_form n reader.old reader.new) }
{
    take_object(reader)?;
    take_key(reader, "endTime")?;
    let end = usual_moment(reader)?;
    take_end(reader)?;
    Some(end)
}

/// All of a report, before it is known whether its values agree.
pub(crate) fn usual_body(alloc: Global, reader: &mut Reader<'_>) -> Option<ReadReport>
    ensures { IfSome result (λ b. Leads body_form (body_content b) reader.old reader.new) }
{
    take_object(reader)?;
    take_key(reader, "fileFooter")?;
    let end = usual_footer(reader)?;
    take_key(reader, "fileHeader")?;
    let header = usual_header(alloc, reader)?;
    take_key(reader, "measData")?;
    let parts = usual_parts(alloc, reader)?;
    take_end(reader)?;
    Some(ReadReport { header, end, parts })
}
