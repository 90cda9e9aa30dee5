//! The rows and groups of a text that is written in the usual way.
ghost use Rattle.std.specs.Prelude.{map, IfSome};
ghost use Rattle.pm_form.specs.Lists.{list_of};
ghost use Rattle.pm_file.specs.Report.{row_content, group_content};
ghost use Rattle.pm_file.specs.ReportForm.{result_form, type_form, row_form, group_form};
ghost use Rattle.pm_file.specs.Usual.{Leads};

use crate::report::{Group, Row};
use crate::usual_names::{usual_class, usual_object, usual_result, usual_type};
use crate::usual_tokens::{next_flag, take_array, take_end, take_key, take_object};
use json::Reader;
use pm_base::Text;
use std::alloc::Global;

fn usual_results(alloc: Global, reader: &mut Reader<'_>) -> Option<Vec<Option<u64>>>
    ensures { IfSome result (λ v. Leads (list_of result_form) v.items reader.old reader.new) }
{
    take_array(reader)?;
    let mut results = Vec::new(alloc);
    while !reader.take_end_array() {
        let result = usual_result(reader)?;
        if results.push(result).is_err() {
            return None;
        }
    }
    Some(results)
}

fn usual_row(alloc: Global, reader: &mut Reader<'_>) -> Option<Row>
    ensures { IfSome result (λ r. Leads row_form (row_content r) reader.old reader.new) }
{
    take_object(reader)?;
    take_key(reader, "measObjInstId")?;
    let object = usual_object(alloc, reader)?;
    take_key(reader, "measResults")?;
    let results = usual_results(alloc, reader)?;
    take_key(reader, "suspectFlag")?;
    let suspect = next_flag(reader)?;
    take_end(reader)?;
    Some(Row {
        object,
        results,
        suspect,
    })
}

fn usual_rows(alloc: Global, reader: &mut Reader<'_>) -> Option<Vec<Row>>
    ensures { IfSome result (λ v. Leads (list_of row_form) (map row_content v.items) reader.old reader.new) }
{
    take_array(reader)?;
    let mut rows = Vec::new(alloc);
    while !reader.take_end_array() {
        let row = usual_row(alloc, reader)?;
        if rows.push(row).is_err() {
            return None;
        }
    }
    Some(rows)
}

fn usual_types(alloc: Global, reader: &mut Reader<'_>) -> Option<Vec<Text>>
    ensures { IfSome result (λ v. Leads (list_of type_form) v.items reader.old reader.new) }
{
    take_array(reader)?;
    let mut types = Vec::new(alloc);
    while !reader.take_end_array() {
        let name = usual_type(alloc, reader)?;
        if types.push(name).is_err() {
            return None;
        }
    }
    Some(types)
}

fn usual_group(alloc: Global, reader: &mut Reader<'_>) -> Option<Group>
    ensures { IfSome result (λ g. Leads group_form (group_content g) reader.old reader.new) }
{
    take_object(reader)?;
    take_key(reader, "measTypes")?;
    let types = usual_types(alloc, reader)?;
    take_key(reader, "measValues")?;
    let rows = usual_rows(alloc, reader)?;
    take_key(reader, "objectClass")?;
    let class = usual_class(alloc, reader)?;
    take_end(reader)?;
    Some(Group { class, types, rows })
}

/// The groups of a part.
pub(crate) fn usual_groups(alloc: Global, reader: &mut Reader<'_>) -> Option<Vec<Group>>
    ensures { IfSome result (λ v. Leads (list_of group_form) (map group_content v.items) reader.old reader.new) }
{
    take_array(reader)?;
    let mut groups = Vec::new(alloc);
    while !reader.take_end_array() {
        let group = usual_group(alloc, reader)?;
        if groups.push(group).is_err() {
            return None;
        }
    }
    Some(groups)
}
