//! Dates by day number, from 1970-01-01 to 9999-12-31.
ghost use Rattle.std.specs.Prelude.{◌≡◌, ◌<◌, ◌≤◌, MatchOption};
ghost use Rattle.pm_name.specs.Calendar.{IsDate, day_number};

use jiff_core::civil::Date;

/// A year, a month from 1 and a day from 1.
#[derive(Clone, Copy)]
pub(crate) struct CalendarDate {
    pub(crate) year: u16,
    pub(crate) month: u8,
    pub(crate) day: u8,
}

impl CalendarDate {
    ghost use Rattle.pm_name.specs.CalendarDate.{date_of};

    /// The days since 1970-01-01, if the calendar has the date.
    pub(crate) fn day_number(self) -> Option<u32>
        requires year_in { self.year < 10000 }
        requires month_in { self.month < 100 }
        requires day_in { self.day < 100 }
        ensures { MatchOption result (¬ IsDate (date_of self))
            (λ number. IsDate (date_of self) × (day_number (date_of self) ≡ number) × (number ≤ 2932896)) }
    {
        if self.year < 1970 {
            return None;
        }
        match Date::new(self.year as i16, self.month as i8, self.day as i8) {
            Ok(date) => Some(date.to_unix_epoch_day() as u32),
            Err(_) => None,
        }
    }

    /// The date so many days after 1970-01-01.
    pub(crate) fn from_day_number(number: u32) -> CalendarDate
        requires { number ≤ 2932896 }
        ensures date { IsDate (date_of result) }
        ensures number { day_number (date_of result) ≡ number }
    {
        match Date::from_unix_epoch_day(number as i64) {
            Ok(date) => CalendarDate {
                year: date.year as u16,
                month: date.month,
                day: date.day,
            },
            Err(_) => unreachable!(),
        }
    }
}
