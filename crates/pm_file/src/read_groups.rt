//! The rows and groups of a tree.
ghost use Rattle.std.specs.Prelude.{ℕ, List, map};
ghost use Rattle.serde_json.specs.View.{view};
ghost use Rattle.pm_form.specs.Lists.{list_of};
ghost use Rattle.pm_form.specs.Says.{Says};
ghost use Rattle.pm_file.specs.Report.{row_content, group_content};
ghost use Rattle.pm_file.specs.ReportForm.{result_form, type_form, row_form, group_form};

use crate::names::object_name_in;
use crate::report::{Group, Row};
use pm_base::Text;
use pm_form::{
    ReadError, Refusal, class_word_in, flag_in, items_of, measure_name_in, values_of,
    whole_or_null_in,
};
use serde_json::Value;
use std::alloc::Global;

fn read_results(alloc: Global, value: &Value) -> Result<Vec<Option<u64>>, ReadError>
    ensures { Says result (λ v. v.items) ((list_of result_form).reads (view value.now)) }
{
    let list = items_of(value)?;
    let mut results = Vec::new(alloc);
    for item in list {
        let result = whole_or_null_in(item)?;
        if results.push(result).is_err() {
            return Err(ReadError::Memory);
        }
    }
    Ok(results)
}

#[tactic(auto, unfolding(crate::specs::ReportForm::row_form))]
fn read_row(alloc: Global, value: &Value) -> Result<Row, ReadError>
    ensures { Says result row_content (row_form.reads (view value.now)) }
{
    let mut values = values_of(value, &["measObjInstId", "measResults", "suspectFlag"])?;
    let Some(object) = values.next() else {
        return Err(ReadError::Refused(Refusal::WrongKeys));
    };
    let object = object_name_in(alloc, object)?;
    let Some(results) = values.next() else {
        return Err(ReadError::Refused(Refusal::WrongKeys));
    };
    let results = read_results(alloc, results)?;
    let Some(suspect) = values.next() else {
        return Err(ReadError::Refused(Refusal::WrongKeys));
    };
    let suspect = flag_in(suspect)?;
    Ok(Row {
        object,
        results,
        suspect,
    })
}

fn read_rows(alloc: Global, value: &Value) -> Result<Vec<Row>, ReadError>
    ensures { Says result (λ v. map row_content v.items) ((list_of row_form).reads (view value.now)) }
{
    let list = items_of(value)?;
    let mut rows = Vec::new(alloc);
    for item in list {
        let row = read_row(alloc, item)?;
        if rows.push(row).is_err() {
            return Err(ReadError::Memory);
        }
    }
    Ok(rows)
}

#[tactic(auto, unfolding(crate::specs::ReportForm::type_form))]
fn read_type(alloc: Global, value: &Value) -> Result<Text, ReadError>
    ensures { Says result (λ (s : List ℕ). s) (type_form.reads (view value.now)) }
{
    measure_name_in(alloc, value)
}

fn read_types(alloc: Global, value: &Value) -> Result<Vec<Text>, ReadError>
    ensures { Says result (λ v. v.items) ((list_of type_form).reads (view value.now)) }
{
    let list = items_of(value)?;
    let mut types = Vec::new(alloc);
    for item in list {
        let name = read_type(alloc, item)?;
        if types.push(name).is_err() {
            return Err(ReadError::Memory);
        }
    }
    Ok(types)
}

#[tactic(auto, unfolding(crate::specs::ReportForm::group_form))]
fn read_group(alloc: Global, value: &Value) -> Result<Group, ReadError>
    ensures { Says result group_content (group_form.reads (view value.now)) }
{
    let mut values = values_of(value, &["measTypes", "measValues", "objectClass"])?;
    let Some(types) = values.next() else {
        return Err(ReadError::Refused(Refusal::WrongKeys));
    };
    let types = read_types(alloc, types)?;
    let Some(rows) = values.next() else {
        return Err(ReadError::Refused(Refusal::WrongKeys));
    };
    let rows = read_rows(alloc, rows)?;
    let Some(class) = values.next() else {
        return Err(ReadError::Refused(Refusal::WrongKeys));
    };
    let class = class_word_in(alloc, class)?;
    Ok(Group { class, types, rows })
}

/// The groups of a part.
pub(crate) fn read_groups(alloc: Global, value: &Value) -> Result<Vec<Group>, ReadError>
    ensures { Says result (λ v. map group_content v.items) ((list_of group_form).reads (view value.now)) }
{
    let list = items_of(value)?;
    let mut groups = Vec::new(alloc);
    for item in list {
        let group = read_group(alloc, item)?;
        if groups.push(group).is_err() {
            return Err(ReadError::Memory);
        }
    }
    Ok(groups)
}
