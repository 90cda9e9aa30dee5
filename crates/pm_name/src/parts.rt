//! The parts of a file name's text, each taken off the front.
ghost use Rattle.std.specs.Prelude.{◌≡◌, ◌≤◌, ◌<◌, ◌%◌, ◌↔◌, ℕ, List, None, IsTrue, MatchOption, length};
ghost use Rattle.pm_base.specs.declared.moment.TheConstants.{LAST_MOMENT};
ghost use Rattle.std.specs.Option.{ForSome};
ghost use Rattle.std.specs.List.{AllPass, prefix_len};
ghost use Rattle.std.specs.Char.{is_ascii_digit};
ghost use Rattle.pm_base.specs.Names.{is_id_char};
ghost use Rattle.pm_name.specs.Kind.{type_of};
ghost use Rattle.pm_name.specs.Reading.{BeginsWith, ReadsType, ReadsDate, ReadsTime, ReadsStart, LooksLikeDate, ReadsEndDate, IsEnd, ReadsEnd, ReadsJob, ReadsUnique};

use crate::FileKind;
use crate::date::CalendarDate;
use crate::digits::{split_mark, split_two_digits};
use crate::kind::{DAY_MINUTES, DAY_SECONDS};
use pm_base::{is_dn_id, is_job_id};

/// Type.
pub(crate) fn split_type(bytes: &[u8]) -> Option<(FileKind, &[u8])>
    ensures { MatchOption result (¬ BeginsWith ReadsType bytes.now)
        (λ split. ReadsType bytes.now (type_of split.0) split.1.now) }
{
    match bytes.split_first() {
        Some((b'A', rest)) => Some((FileKind::A, rest)),
        Some((b'C', rest)) => Some((FileKind::C, rest)),
        _ => None,
    }
}

/// A date, by its day number, and `.`.
pub(crate) fn split_date(bytes: &[u8]) -> Option<(u32, &[u8])>
    ensures { MatchOption result (¬ BeginsWith ReadsDate bytes.now)
        (λ split. ReadsDate bytes.now split.0 split.1.now × (split.0 ≤ 2932896)) }
{
    let (century, behind_century) = split_two_digits(bytes)?;
    let (year, behind_year) = split_two_digits(behind_century)?;
    let (month, behind_month) = split_two_digits(behind_year)?;
    let (day, behind_day) = split_two_digits(behind_month)?;
    let rest = split_mark(behind_day, b".")?;
    let year = century as u16 * 100 + year as u16;
    let number = CalendarDate { year, month, day }.day_number()?;
    Some((number, rest))
}

/// A time, as the minute of the day, and `+0000`.
pub(crate) fn split_time(bytes: &[u8]) -> Option<(u64, &[u8])>
    ensures { MatchOption result (¬ BeginsWith ReadsTime bytes.now)
        (λ split. ReadsTime bytes.now split.0 split.1.now) }
{
    let (hour, behind_hour) = split_two_digits(bytes)?;
    let (minute, behind_minute) = split_two_digits(behind_hour)?;
    let rest = split_mark(behind_minute, b"+0000")?;
    if hour < 24 && minute < 60 {
        Some((hour as u64 * 60 + minute as u64, rest))
    } else {
        None
    }
}

/// Starttime and `-`.
pub(crate) fn split_start(bytes: &[u8]) -> Option<(u64, &[u8])>
    ensures { MatchOption result (¬ BeginsWith ReadsStart bytes.now)
        (λ split. ReadsStart bytes.now split.0 split.1.now) }
{
    let (minute, behind) = split_time(bytes)?;
    let rest = split_mark(behind, b"-")?;
    Some((minute, rest))
}

/// Enddate: its day number with type `C`, and with `A` none.
pub(crate) fn split_end_date(kind: FileKind, bytes: &[u8]) -> Option<(Option<u32>, &[u8])>
    ensures { MatchOption result (¬ BeginsWith (ReadsEndDate (type_of kind)) bytes.now)
        (λ split. ReadsEndDate (type_of kind) bytes.now split.0 split.1.now × ForSome split.0 (λ day. day ≤ 2932896)) }
{
    match kind {
        FileKind::A => {
            if looks_like_date(bytes) {
                None
            } else {
                Some((None, bytes))
            }
        }
        FileKind::C => {
            let (day, rest) = split_date(bytes)?;
            Some((Some(day), rest))
        }
    }
}

fn are_digits(bytes: &[u8]) -> bool
    ensures { IsTrue result ↔ AllPass is_ascii_digit bytes.now }
{
    bytes.iter().all(|b| b.is_ascii_digit())
}

/// Whether eight digits and `.` stand at the front.
fn looks_like_date(bytes: &[u8]) -> bool
    ensures { IsTrue result ↔ LooksLikeDate bytes.now }
{
    if bytes.len() < 9 {
        return false;
    }
    are_digits(&bytes[..8]) && bytes[8] == b'.'
}

/// The first moment after `begin`, a whole minute, that lies at that minute of a day.
fn next_at(begin: u64, minute: u64) -> u64
    requires whole { begin % 60 ≡ 0 }
    requires in_day { minute < 1440 }
    requires small { begin ≤ LAST_MOMENT }
    ensures { IsEnd begin None minute result }
{
    let start = begin % DAY_SECONDS / 60;
    let minutes = if start < minute {
        minute - start
    } else {
        minute + DAY_MINUTES - start
    };
    begin + 60 * minutes
}

/// Endtime, with the length rule.
pub(crate) fn split_end(
    kind: FileKind,
    begin: u64,
    day: Option<u32>,
    bytes: &[u8],
) -> Option<(u64, &[u8])>
    requires whole { begin % 60 ≡ 0 }
    requires small { begin ≤ LAST_MOMENT }
    requires small_day { ForSome day (λ day. day ≤ 2932896) }
    ensures { MatchOption result (¬ BeginsWith (ReadsEnd (type_of kind) begin day) bytes.now)
        (λ split. ReadsEnd (type_of kind) begin day bytes.now split.0 split.1.now) }
{
    let (minute, rest) = split_time(bytes)?;
    let end = match day {
        None => next_at(begin, minute),
        Some(day) => day as u64 * DAY_SECONDS + minute * 60,
    };
    if kind.can_span(begin, end) {
        Some((end, rest))
    } else {
        None
    }
}

/// How many bytes of the alphabet of job ids stand at the front.
fn id_length(bytes: &[u8]) -> usize
    ensures value { result ≡ prefix_len is_id_char bytes.now }
    ensures bound { result ≤ length bytes.now }
{
    bytes
        .iter()
        .take_while(|b| b.is_ascii_alphanumeric() || **b == b'-')
        .count()
}

/// `_-` and a job id.
pub(crate) fn split_job(bytes: &[u8]) -> Option<(&[u8], &[u8])>
    ensures { MatchOption result (¬ BeginsWith ReadsJob bytes.now)
        (λ split. ReadsJob bytes.now split.0.now split.1.now) }
{
    let behind = split_mark(bytes, b"_-")?;
    let (job, rest) = behind.split_at(id_length(behind));
    if is_job_id(job) {
        Some((job, rest))
    } else {
        None
    }
}

/// `_` and an id of a distinguished name, to the end.
pub(crate) fn unique_id(bytes: &[u8]) -> Option<&[u8]>
    ensures { MatchOption result ((unique : List ℕ) → ¬ ReadsUnique bytes.now unique)
        (λ unique. ReadsUnique bytes.now unique.now) }
{
    let unique = split_mark(bytes, b"_")?;
    if is_dn_id(unique) { Some(unique) } else { None }
}
