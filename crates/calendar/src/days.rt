ghost use Rattle.std.specs.Prelude.{◌≡◌, if◌then◌else◌, Some, None};
ghost use Rattle.calendar.specs.Days.{is_day, is_month, is_year, leap, year_of, month_of, new_year, month_start};

use super::day::Day;
use super::month::Month;
use super::year::Year;

// The last of the days, 31 December 2082.
pub const LAST_DAY: u16 = 23_376;

// The last of the months, December 2082.
pub const LAST_MONTH: u16 = 768;

// Is it one of the days 1 to 23,376?
pub fn is_day(day: u16) -> bool
    ensures { result ≡ is_day day }
{
    (1..=LAST_DAY).contains(&day)
}

// Is it one of the months 1 to 768?
pub fn is_month(month: u16) -> bool
    ensures { result ≡ is_month month }
{
    (1..=LAST_MONTH).contains(&month)
}

// Is it one of the years 2019 to 2082?
pub fn is_year(year: u16) -> bool
    ensures { result ≡ is_year year }
{
    (2019..=2082).contains(&year)
}

// Is it a leap year, by the Gregorian rule?
pub fn is_leap(year: u16) -> bool
    ensures { result ≡ leap year }
{
    year % 4 == 0 && (year % 100 != 0 || year % 400 == 0)
}

// Days, months and years travel as numbers, as records and the log have them; within, a type knows the range. Each
// question is one line.

// The year of a day.
pub fn year_of(day: u16) -> Option<u16>
    ensures { result ≡ (if is_day day then Some (year_of day) else None) }
{
    Some(Day::new(day)?.year().number)
}

// The month of a day.
pub fn month_of(day: u16) -> Option<u16>
    ensures { result ≡ (if is_day day then Some (month_of day) else None) }
{
    Some(Day::new(day)?.month().number)
}

// The first day of a year.
pub fn first_day_of_year(year: u16) -> Option<u16>
    ensures { result ≡ (if is_year year then Some (new_year year) else None) }
{
    Some(Year::new(year)?.first_day().number)
}

// The first day of a month.
pub fn first_day_of_month(month: u16) -> Option<u16>
    ensures { result ≡ (if is_month month then Some (month_start month) else None) }
{
    Some(Month::new(month)?.first_day().number)
}
