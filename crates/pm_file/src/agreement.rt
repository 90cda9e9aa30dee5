//! Whether the values of a report agree with each other.
ghost use Rattle.std.specs.Prelude.{◌≡◌, ◌+◌, ◌==◌, true, map, length};
ghost use Rattle.std.specs.List.{list_all};
ghost use Rattle.pm_file.specs.Report.{row_content, group_content};
ghost use Rattle.pm_file.specs.Reading.{read_part_content, read_content};
ghost use Rattle.pm_file.specs.Agreement.{row_agrees, group_agrees, text_before, classes_rise, part_agrees, parts_follow, first_granularity, is_granularity, is_file_span, report_agrees};

use crate::read::{ReadHeader, ReadPart};
use crate::report::{Group, Part, Row};
use pm_name::FileKind;
use std::cmp::Ordering;

fn rows_agree(rows: &[Row], count: usize) -> bool
    ensures { result ≡ list_all (row_agrees count) (map row_content rows.now) }
{
    for row in rows {
        if row.results.len() != count {
            return false;
        }
    }
    true
}

fn group_agrees(group: &Group) -> bool
    ensures { result ≡ group_agrees (group_content group.now) }
{
    !group.types.is_empty() && !group.rows.is_empty() && rows_agree(&group.rows, group.types.len())
}

fn groups_agree(groups: &[Group]) -> bool
    ensures { result ≡ list_all group_agrees (map group_content groups.now) }
{
    for group in groups {
        if !group_agrees(group) {
            return false;
        }
    }
    true
}

fn is_before(a: &Group, b: &Group) -> bool
    ensures { result ≡ text_before (group_content a.now).class (group_content b.now).class }
{
    match a.class.as_bytes().cmp(b.class.as_bytes()) {
        Ordering::Less => true,
        _ => false,
    }
}

fn classes_rise(groups: &[Group]) -> bool
    ensures { result ≡ classes_rise (map group_content groups.now) }
{
    let mut rest = groups;
    while let [first, second, ..] = rest {
        if !is_before(first, second) {
            return false;
        }
        rest = &rest[1..];
    }
    true
}

fn is_as_long(part: &Part, seconds: u64) -> bool
    ensures { result ≡ (part.now.begin + seconds == part.now.end) }
{
    part.begin <= part.end && part.end - part.begin == seconds
}

fn part_agrees(part: &ReadPart, seconds: u64) -> bool
    ensures { result ≡ part_agrees seconds (read_part_content part.now) }
{
    if part.granularity != seconds {
        return false;
    }
    if !is_as_long(&part.part, seconds) {
        return false;
    }
    if part.part.groups.is_empty() {
        return false;
    }
    if !classes_rise(&part.part.groups) {
        return false;
    }
    groups_agree(&part.part.groups)
}

fn parts_agree(parts: &[ReadPart], seconds: u64) -> bool
    ensures { result ≡ list_all (part_agrees seconds) (map read_part_content parts.now) }
{
    for part in parts {
        if !part_agrees(part, seconds) {
            return false;
        }
    }
    true
}

fn parts_follow(parts: &[ReadPart], begin: u64, end: u64) -> bool
    ensures { result ≡ parts_follow begin end (map read_part_content parts.now) }
{
    let mut moment = begin;
    for part in parts {
        if part.part.begin != moment {
            return false;
        }
        moment = part.part.end;
    }
    moment == end
}

fn first_granularity(parts: &[ReadPart]) -> u64
    ensures { result ≡ first_granularity (map read_part_content parts.now) }
{
    match parts.first() {
        Some(part) => part.granularity,
        None => 0,
    }
}

fn is_granularity(seconds: u64) -> bool
    ensures { result ≡ is_granularity seconds }
{
    matches!(seconds, 60 | 300 | 900 | 1800 | 3600)
}

fn is_file_span(one_part: bool, begin: u64, end: u64) -> bool
    ensures { result ≡ is_file_span one_part begin end }
{
    FileKind::of_period(one_part).can_span(begin, end)
}

/// Whether what was read agrees.
pub(crate) fn report_agrees(header: &ReadHeader, end: u64, parts: &[ReadPart]) -> bool
    ensures { result ≡ report_agrees (read_content header.now end parts.now) }
{
    let seconds = first_granularity(parts);
    is_granularity(seconds)
        && parts_agree(parts, seconds)
        && parts_follow(parts, header.begin, end)
        && is_file_span(parts.len() == 1, header.begin, end)
}
