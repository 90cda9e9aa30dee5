//! The text of a file name, from the front.
ghost use Rattle.std.specs.Prelude.{◌≡◌, ◌≤◌, ◌<◌, ◌+◌, ◌/◌, List, ◌++◌, ℕ, OnOk, IfOk, length, codes};
ghost use Rattle.pm_base.specs.declared.moment.TheConstants.{LAST_MOMENT};
ghost use Rattle.pm_name.specs.Calendar.{Date, IsDate, IsDateOf, day_number};
ghost use Rattle.pm_name.specs.FileName.{IsFileSpan, IsEndDate, date_text, time_text, type_text, minute_of_day};
ghost use Rattle.pm_name.specs.Kind.{type_of};
ghost use Rattle.pm_name.specs.Name.{IsTimesText};

use crate::FileKind;
use crate::date::CalendarDate;
use crate::digits::two_digits;
use crate::kind::DAY_SECONDS;
use std::alloc::{AllocError, Global};

/// Appends the date of a moment.
fn push_date(text: &mut Vec<u8>, moment: u64) -> Result<(), AllocError>
    requires { moment ≤ LAST_MOMENT }
    ensures { OnOk result ((date : Date) × IsDateOf date moment × (text.new.items ≡ text.old.items ++ date_text date)) }
{
    let date = CalendarDate::from_day_number((moment / DAY_SECONDS) as u32);
    text.extend_from_slice(&two_digits((date.year / 100) as u8))?;
    text.extend_from_slice(&two_digits((date.year % 100) as u8))?;
    text.extend_from_slice(&two_digits(date.month))?;
    text.extend_from_slice(&two_digits(date.day))?;
    Ok(())
}

/// Appends the time of a moment.
fn push_time(text: &mut Vec<u8>, moment: u64) -> Result<(), AllocError>
    ensures { OnOk result (text.new.items ≡ text.old.items ++ time_text (minute_of_day moment)) }
{
    let minute = moment % DAY_SECONDS / 60;
    text.extend_from_slice(&two_digits((minute / 60) as u8))?;
    text.extend_from_slice(&two_digits((minute % 60) as u8))?;
    text.extend_from_slice(b"+0000")?;
    Ok(())
}

/// Appends Enddate, which stands in a name of type `C` alone.
fn push_end_date(text: &mut Vec<u8>, kind: FileKind, end: u64) -> Result<(), AllocError>
    requires { end ≤ LAST_MOMENT }
    ensures { OnOk result ((end_date : List ℕ) × IsEndDate (type_of kind) end end_date × (text.new.items ≡ text.old.items ++ end_date)) }
{
    match kind {
        FileKind::A => Ok(()),
        FileKind::C => {
            push_date(text, end)?;
            text.push(b'.')?;
            Ok(())
        }
    }
}

/// The text of a name up to Endtime.
pub(crate) fn write_times(
    alloc: Global,
    kind: FileKind,
    begin: u64,
    end: u64,
) -> Result<Vec<u8>, AllocError>
    requires begin_in { begin ≤ LAST_MOMENT }
    requires end_in { end ≤ LAST_MOMENT }
    ensures { IfOk result (λ text. IsTimesText (type_of kind) begin end text.items) }
{
    let mut text = Vec::new(alloc);
    text.push(match kind {
        FileKind::A => b'A',
        FileKind::C => b'C',
    })?;
    push_date(&mut text, begin)?;
    text.push(b'.')?;
    push_time(&mut text, begin)?;
    text.push(b'-')?;
    push_end_date(&mut text, kind, end)?;
    push_time(&mut text, end)?;
    Ok(text)
}
