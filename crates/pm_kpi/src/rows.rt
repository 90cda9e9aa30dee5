//! The shares of the rows of a report.
ghost use Rattle.std.specs.Prelude.{◌≡◌, ◌≤◌, ◌<◌, ◌*◌, ◌-◌, ◌^◌, ◌++◌, map, length, IfOk, OnOk, [], ◌∷◌};
ghost use Rattle.std.specs.List.{flat_map};
ghost use Rattle.std.specs.Option.{option_map};
ghost use Rattle.pm_file.specs.Says.{content_of};
ghost use Rattle.pm_file.specs.Report.{group_content, part_content};
ghost use Rattle.pm_kpi.specs.Key.{key_content};
ghost use Rattle.pm_kpi.specs.Ratios.{ratio_content};
ghost use Rattle.pm_kpi.specs.Rows.{is_row_of, adds_of, key_of, share_of, shares_of_row, rows_in_group, rows_in_part, rows_in_report, shares_of};
ghost use Rattle.pm_kpi.specs.Asked.{asked_content, row_at, share_content, shares_in};

use crate::results::{have_all, have_results, sum_of};
use crate::share::Share;
use crate::{Adds, By, Key, Ratio, Ratios};
use pm_base::Text;
use pm_file::{Group, Part, Report, Row};
use std::alloc::{AllocError, Global};

/// What is asked for: these ratios, over the parts between two moments, by what is joined.
#[derive(Clone, Copy)]
pub(crate) struct Asked<'a> {
    pub ratios: &'a Ratios,
    pub begin: u64,
    pub end: u64,
    pub by: By,
}

/// What a row stands under.
#[derive(Clone, Copy)]
pub(crate) struct Place<'a> {
    pub job: &'a [u8],
    pub begin: u64,
    pub end: u64,
    pub types: &'a [Text],
}

// Whether the rows of this place are rows of the ratio.
fn takes(asked: &Asked<'_>, ratio: &Ratio, place: &Place<'_>, row: &Row) -> bool
    ensures { result ≡ is_row_of (asked_content asked.now) (ratio_content ratio.now) (row_at place.now row.now) }
{
    asked.begin <= place.begin
        && place.end <= asked.end
        && have_all(place.types, &ratio.above)
        && have_all(place.types, &ratio.below)
}

fn adds_of(ratio: &Ratio, place: &Place<'_>, row: &Row) -> Adds
    ensures value { result ≡ adds_of (ratio_content ratio.now) (row_at place.now row.now) }
    ensures small_above { result.above ≤ 8 * (2 ^ 64 - 1) }
    ensures small_below { result.below ≤ 8 * (2 ^ 64 - 1) }
{
    let whole = have_results(place.types, &row.results, &ratio.above)
        && have_results(place.types, &row.results, &ratio.below);
    Adds {
        whole,
        above: sum_of(place.types, &row.results, &ratio.above),
        below: sum_of(place.types, &row.results, &ratio.below),
        suspect: row.suspect,
    }
}

fn key_of(
    alloc: Global,
    by: By,
    place: &Place<'_>,
    row: &Row,
    number: u8,
) -> Result<Key, AllocError>
    ensures { IfOk result (λ key. key_content key ≡ key_of by (row_at place.now row.now) number) }
{
    let job = Vec::from_slice(alloc, place.job)?;
    let (begin, end) = match by {
        By::Period => (place.begin, place.end),
        By::Object | By::All => (0, 0),
    };
    let object = match by {
        By::Period | By::Object => Vec::from_slice(alloc, row.object.as_bytes())?,
        By::All => Vec::new(alloc),
    };
    Ok(Key {
        job,
        begin,
        end,
        object,
        ratio: number,
    })
}

// The share of a row in the key of the ratio of this number.
fn share_of(
    alloc: Global,
    asked: &Asked<'_>,
    place: &Place<'_>,
    row: &Row,
    number: u8,
    ratio: &Ratio,
) -> Result<Option<Share>, AllocError>
    ensures { IfOk result (λ share. option_map share_content share ≡ share_of (asked_content asked.now) (row_at place.now row.now) (number, ratio_content ratio.now)) }
{
    if !takes(asked, ratio, place, row) {
        return Ok(None);
    }
    let key = key_of(alloc, asked.by, place, row, number)?;
    let adds = adds_of(ratio, place, row);
    Ok(Some(Share { key, adds }))
}

// Adds the shares of a row.
fn add_row(
    alloc: Global,
    asked: &Asked<'_>,
    shares: &mut Vec<Share>,
    place: &Place<'_>,
    row: &Row,
) -> Result<(), AllocError>
    ensures { OnOk result (shares_in shares.new ≡ shares_in shares.old ++ shares_of_row (asked_content asked.now) (row_at place.now row.now)) }
{
    for (number, ratio) in asked.ratios.list().iter().enumerate() {
        if let Some(share) = share_of(alloc, asked, place, row, number as u8, ratio)? {
            shares.push(share)?;
        }
    }
    Ok(())
}

fn add_rows(
    alloc: Global,
    asked: &Asked<'_>,
    shares: &mut Vec<Share>,
    place: &Place<'_>,
    rows: &[Row],
) -> Result<(), AllocError>
    ensures { OnOk result (shares_in shares.new ≡ shares_in shares.old ++ flat_map (shares_of_row (asked_content asked.now)) (map (row_at place.now) rows.now)) }
{
    for row in rows {
        add_row(alloc, asked, shares, place, row)?;
    }
    Ok(())
}

fn add_group(
    alloc: Global,
    asked: &Asked<'_>,
    shares: &mut Vec<Share>,
    job: &[u8],
    part: &Part,
    group: &Group,
) -> Result<(), AllocError>
    ensures { OnOk result (shares_in shares.new ≡ shares_in shares.old ++ flat_map (shares_of_row (asked_content asked.now)) (rows_in_group job.now part.now.begin part.now.end (group_content group.now))) }
{
    let place = Place {
        job,
        begin: part.begin,
        end: part.end,
        types: &group.types,
    };
    add_rows(alloc, asked, shares, &place, &group.rows)
}

fn add_part(
    alloc: Global,
    asked: &Asked<'_>,
    shares: &mut Vec<Share>,
    job: &[u8],
    part: &Part,
) -> Result<(), AllocError>
    ensures { OnOk result (shares_in shares.new ≡ shares_in shares.old ++ flat_map (shares_of_row (asked_content asked.now)) (rows_in_part job.now (part_content part.now))) }
{
    for group in &part.groups {
        add_group(alloc, asked, shares, job, part, group)?;
    }
    Ok(())
}

/// The shares of the rows of a report.
pub(crate) fn shares_of(
    alloc: Global,
    asked: &Asked<'_>,
    report: &Report,
) -> Result<Vec<Share>, AllocError>
    ensures { IfOk result (λ shares. shares_in shares ≡ shares_of (asked_content asked.now) (content_of report.now ∷ [])) }
{
    let mut shares = Vec::new(alloc);
    for part in &report.parts {
        add_part(alloc, asked, &mut shares, report.job.as_bytes(), part)?;
    }
    Ok(shares)
}
