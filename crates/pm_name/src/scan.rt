//! A text read as a file name without memory: its ids stay in the text.
ghost use Rattle.std.specs.Prelude.{◌≡◌, ◌≤◌, ◌%◌, MatchResult};
ghost use Rattle.pm_name.specs.FileName.{IsFileName};
ghost use Rattle.pm_name.specs.Kind.{type_of};
ghost use Rattle.pm_name.specs.Name.{name_parts};
ghost use Rattle.pm_name.specs.Reading.{ToStart, ToEnd, Refuses};

use crate::kind::DAY_SECONDS;
use crate::parts::{
    split_date, split_end, split_end_date, split_job, split_start, split_type, unique_id,
};
use crate::{FileKind, NameError};

/// Type and start, and the bytes behind them.
#[derive(Drop)]
struct Start<'a> {
    kind: FileKind,
    begin: u64,
    rest: &'a [u8],
}

/// Type, start and end, and the bytes behind them.
#[derive(Drop)]
struct Times<'a> {
    kind: FileKind,
    begin: u64,
    end: u64,
    rest: &'a [u8],
}

/// What a text says.
#[derive(Drop)]
pub(crate) struct Scan<'a> {
    pub(crate) kind: FileKind,
    pub(crate) begin: u64,
    pub(crate) end: u64,
    pub(crate) job: &'a [u8],
    pub(crate) unique: &'a [u8],
}

fn scan_start(bytes: &[u8]) -> Result<Start<'_>, NameError>
    ensures { MatchResult result
        (λ start. ToStart bytes.now (type_of start.kind) start.begin start.rest.now × (start.begin % 60 ≡ 0) × (start.begin ≤ 253402300740))
        (Refuses bytes.now) }
{
    let Some((kind, behind_kind)) = split_type(bytes) else {
        return Err(NameError::F1);
    };
    let Some((day, behind_day)) = split_date(behind_kind) else {
        return Err(NameError::F2);
    };
    let Some((minute, rest)) = split_start(behind_day) else {
        return Err(NameError::F3);
    };
    let begin = day as u64 * DAY_SECONDS + minute * 60;
    Ok(Start { kind, begin, rest })
}

fn scan_times(bytes: &[u8]) -> Result<Times<'_>, NameError>
    ensures { MatchResult result
        (λ times. ToEnd bytes.now (type_of times.kind) times.begin times.end times.rest.now)
        (Refuses bytes.now) }
{
    let Start { kind, begin, rest } = scan_start(bytes)?;
    let Some((day, behind_day)) = split_end_date(kind, rest) else {
        return Err(NameError::F4);
    };
    let Some((end, behind_end)) = split_end(kind, begin, day, behind_day) else {
        return Err(NameError::F5);
    };
    Ok(Times {
        kind,
        begin,
        end,
        rest: behind_end,
    })
}

/// What the text says, or the refusal that names its first part that fails.
pub(crate) fn scan_name(bytes: &[u8]) -> Result<Scan<'_>, NameError>
    ensures { MatchResult result
        (λ scan. IsFileName bytes.now (name_parts scan.kind scan.begin scan.end scan.job.now scan.unique.now))
        (Refuses bytes.now) }
{
    let times = scan_times(bytes)?;
    let Some((job, behind_job)) = split_job(times.rest) else {
        return Err(NameError::F6);
    };
    let Some(unique) = unique_id(behind_job) else {
        return Err(NameError::F7);
    };
    Ok(Scan {
        kind: times.kind,
        begin: times.begin,
        end: times.end,
        job,
        unique,
    })
}
