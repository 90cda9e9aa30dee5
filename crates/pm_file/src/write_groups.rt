//! The rows and groups of a report, written.
ghost use Rattle.std.specs.Prelude.{◌≡◌, true, map};
ghost use Rattle.pm_form.specs.Lists.{list_of};
ghost use Rattle.pm_form.specs.Says.{Appends};
ghost use Rattle.pm_file.specs.Report.{row_content, group_content};
ghost use Rattle.pm_file.specs.ReportForm.{result_form, type_form, row_form, group_form};

use crate::report::{Group, Row};
use json::Writer;
use pm_base::Text;
use pm_form::{text_token, whole_or_null_token};
use std::alloc::AllocError;

fn write_results(out: &mut Writer, results: &[Option<u64>]) -> Result<(), AllocError>
    ensures { Appends result out.old out.new ((list_of result_form).tree results.now) }
{
    out.begin_array()?;
    for value in results {
        whole_or_null_token(out, *value)?;
    }
    out.end_array()
}

fn write_row(out: &mut Writer, row: &Row) -> Result<(), AllocError>
    requires { row_form.fits (row_content row.now) ≡ true }
    ensures { Appends result out.old out.new (row_form.tree (row_content row.now)) }
{
    out.begin_object()?;
    out.key("measObjInstId")?;
    text_token(out, row.object.as_bytes())?;
    out.key("measResults")?;
    write_results(out, &row.results)?;
    out.key("suspectFlag")?;
    out.boolean(row.suspect)?;
    out.end_object()
}

fn write_rows(out: &mut Writer, rows: &[Row]) -> Result<(), AllocError>
    requires { (list_of row_form).fits (map row_content rows.now) ≡ true }
    ensures { Appends result out.old out.new ((list_of row_form).tree (map row_content rows.now)) }
{
    out.begin_array()?;
    for row in rows {
        write_row(out, row)?;
    }
    out.end_array()
}

fn write_type(out: &mut Writer, name: &Text) -> Result<(), AllocError>
    requires { type_form.fits name.now ≡ true }
    ensures { Appends result out.old out.new (type_form.tree name.now) }
{
    text_token(out, name.as_bytes())
}

fn write_types(out: &mut Writer, types: &[Text]) -> Result<(), AllocError>
    requires { (list_of type_form).fits types.now ≡ true }
    ensures { Appends result out.old out.new ((list_of type_form).tree types.now) }
{
    out.begin_array()?;
    for name in types {
        write_type(out, name)?;
    }
    out.end_array()
}

fn write_group(out: &mut Writer, group: &Group) -> Result<(), AllocError>
    requires { group_form.fits (group_content group.now) ≡ true }
    ensures { Appends result out.old out.new (group_form.tree (group_content group.now)) }
{
    out.begin_object()?;
    out.key("measTypes")?;
    write_types(out, &group.types)?;
    out.key("measValues")?;
    write_rows(out, &group.rows)?;
    out.key("objectClass")?;
    text_token(out, group.class.as_bytes())?;
    out.end_object()
}

/// Writes the groups of a part.
pub(crate) fn write_groups(out: &mut Writer, groups: &[Group]) -> Result<(), AllocError>
    requires { (list_of group_form).fits (map group_content groups.now) ≡ true }
    ensures { Appends result out.old out.new ((list_of group_form).tree (map group_content groups.now)) }
{
    out.begin_array()?;
    for group in groups {
        write_group(out, group)?;
    }
    out.end_array()
}
