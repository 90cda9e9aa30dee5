//! A report in numbers, in texts.
ghost use Rattle.std.specs.Prelude.{◌≡◌, ◌≤◌, ◌<◌, ◌*◌, true, map, length, IfOk};
ghost use Rattle.pm_form.specs.Lists.{list_of};
ghost use Rattle.pm_file.specs.ReportForm.{type_form, row_form, group_form, part_form};
ghost use Rattle.pm_file.specs.Report.{row_content, group_content, part_content};
ghost use Rattle.pm_file.specs.Permitted.{is_permitted};
ghost use Rattle.pm_file.specs.Numbers.{metric_text, row_in_texts, group_in_texts, part_in_texts, report_in_texts};
ghost use Rattle.pm_file.specs.Numbered.{row_of, group_of, part_of, report_of};
ghost use Rattle.pm_file.specs.Says.{content_of};

use crate::numbers::{NumberedGroup, NumberedPart, NumberedReport, NumberedRow};
use crate::report::{Group, Part, Report, Row};
use pm_base::{TICK_SECONDS, Text};
use pm_inventory::Inventory;
use std::alloc::{AllocError, Global};

fn row_texts(alloc: Global, inventory: &Inventory, row: &NumberedRow) -> Result<Row, AllocError>
    requires { row_form.fits (row_in_texts inventory.now (row_of row.now)) ≡ true }
    ensures { IfOk result (λ r. row_content r ≡ row_in_texts inventory.now (row_of row.now)) }
{
    let object = Text::from_slice(alloc, inventory.tree().text(row.object))?;
    let results = Vec::from_slice(alloc, &row.results)?;
    Ok(Row {
        object,
        results,
        suspect: row.suspect,
    })
}

fn rows_texts(
    alloc: Global,
    inventory: &Inventory,
    rows: &[NumberedRow],
) -> Result<Vec<Row>, AllocError>
    requires { (list_of row_form).fits (map (row_in_texts inventory.now) (map row_of rows.now)) ≡ true }
    ensures { IfOk result (λ v. map row_content v.items ≡ map (row_in_texts inventory.now) (map row_of rows.now)) }
{
    let mut texts = Vec::new(alloc);
    for row in rows {
        let text = row_texts(alloc, inventory, row)?;
        texts.push(text)?;
    }
    Ok(texts)
}

fn type_texts(alloc: Global, inventory: &Inventory, metrics: &[u8]) -> Result<Vec<Text>, AllocError>
    requires { (list_of type_form).fits (map (metric_text inventory.now) metrics.now) ≡ true }
    ensures { IfOk result (λ v. v.items ≡ map (metric_text inventory.now) metrics.now) }
{
    let mut texts = Vec::new(alloc);
    for metric in metrics {
        let def = inventory.catalogue().def(*metric);
        let text = Text::from_slice(alloc, def.name.as_bytes())?;
        texts.push(text)?;
    }
    Ok(texts)
}

fn group_texts(
    alloc: Global,
    inventory: &Inventory,
    group: &NumberedGroup,
) -> Result<Group, AllocError>
    requires { group_form.fits (group_in_texts inventory.now (group_of group.now)) ≡ true }
    ensures { IfOk result (λ g. group_content g ≡ group_in_texts inventory.now (group_of group.now)) }
{
    let class = Text::from_slice(alloc, group.class.name().as_bytes())?;
    let types = type_texts(alloc, inventory, &group.metrics)?;
    let rows = rows_texts(alloc, inventory, &group.rows)?;
    Ok(Group { class, types, rows })
}

fn groups_texts(
    alloc: Global,
    inventory: &Inventory,
    groups: &[NumberedGroup],
) -> Result<Vec<Group>, AllocError>
    requires { (list_of group_form).fits (map (group_in_texts inventory.now) (map group_of groups.now)) ≡ true }
    ensures { IfOk result (λ v. map group_content v.items ≡ map (group_in_texts inventory.now) (map group_of groups.now)) }
{
    let mut texts = Vec::new(alloc);
    for group in groups {
        let text = group_texts(alloc, inventory, group)?;
        texts.push(text)?;
    }
    Ok(texts)
}

fn part_texts(alloc: Global, inventory: &Inventory, part: &NumberedPart) -> Result<Part, AllocError>
    requires { part_form.fits (part_in_texts inventory.now (part_of part.now)) ≡ true }
    ensures { IfOk result (λ p. part_content p ≡ part_in_texts inventory.now (part_of part.now)) }
{
    let begin = TICK_SECONDS * part.begin;
    let end = TICK_SECONDS * part.end;
    let groups = groups_texts(alloc, inventory, &part.groups)?;
    Ok(Part { begin, end, groups })
}

fn parts_texts(
    alloc: Global,
    inventory: &Inventory,
    parts: &[NumberedPart],
) -> Result<Vec<Part>, AllocError>
    requires { (list_of part_form).fits (map (part_in_texts inventory.now) (map part_of parts.now)) ≡ true }
    ensures { IfOk result (λ v. map part_content v.items ≡ map (part_in_texts inventory.now) (map part_of parts.now)) }
{
    let mut texts = Vec::new(alloc);
    for part in parts {
        let text = part_texts(alloc, inventory, part)?;
        texts.push(text)?;
    }
    Ok(texts)
}

impl Report {
    /// The report in texts, of this sender.
    pub fn in_texts(
        alloc: Global,
        inventory: &Inventory,
        sender: Text,
        report: NumberedReport,
    ) -> Result<Report, AllocError>
        requires { is_permitted (report_in_texts inventory.now sender (report_of report)) ≡ true }
        ensures { IfOk result (λ r. content_of r ≡ report_in_texts inventory.now sender (report_of report)) }
    {
        let begin = TICK_SECONDS * report.begin;
        let end = TICK_SECONDS * report.end;
        let parts = parts_texts(alloc, inventory, &report.parts)?;
        let NumberedReport { job, .. } = report;
        Ok(Report {
            job,
            sender,
            begin,
            end,
            parts,
        })
    }
}
