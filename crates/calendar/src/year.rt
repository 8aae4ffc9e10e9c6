ghost use Rattle.std.specs.Prelude.{◌≡◌, ◌<◌, ◌≤◌, cond, is_some, IfSome};
ghost use Rattle.calendar.specs.Days.{is_year, leap, year_length, new_year, month_number, month_lengths, month_at};

use super::day::Day;
use super::days::{is_leap, is_year};
use super::month::Month;

// One of the years 2019 to 2082.
#[derive(Clone, Copy)]
pub(crate) struct Year {
    pub(crate) number: u16,
    ghost in_range: { (2019 ≤ number) × (number ≤ 2082) },
}

impl Year {
    pub(crate) fn new(number: u16) -> Option<Year>
        ensures tested { is_some result ≡ is_year number }
        ensures numbered { IfSome result (λ year. year.number ≡ number) }
    {
        // By `if`: the closure of a `then` would not know the test.
        if is_year(number) {
            Some(Year { number })
        } else {
            None
        }
    }

    // Its first day.
    #[tactic(auto, unfolding(crate::specs::Days::new_year))]
    pub(crate) fn first_day(self) -> Day
        ensures { result.number ≡ new_year self.number }
    {
        Day {
            number: 1 + 365 * (self.number - 2019) + ((self.number - 1) / 4 - 504),
        }
    }

    // How many days its February lacks of 30.
    pub(crate) fn missing_in_february(self) -> u16
        ensures { result ≡ cond (leap self.number) 1 2 }
    {
        if is_leap(self.number) { 1 } else { 2 }
    }

    // Its month, from 1 to 12.
    #[tactic(auto, unfolding(crate::specs::Days::month_number))]
    pub(crate) fn month(self, in_year: u16) -> Month
        requires { (1 ≤ in_year) × (in_year ≤ 12) }
        ensures { result.number ≡ month_number self.number in_year }
    {
        Month {
            number: 12 * (self.number - 2019) + in_year,
        }
    }

    // Its month when `past` of its days have passed: `days_before` of a month the other way round.
    #[tactic(auto, using(crate::proofs::Months::spread_month_is, std::proofs::lemmas::Bool::Decides::nat_tests), unfolding(crate::specs::Days::year_length))]
    pub(crate) fn month_after(self, past: u16) -> Month
        requires { past < year_length self.number }
        ensures { let lengths = month_lengths (leap self.number) in
            result.number ≡ month_number self.number (month_at lengths past) }
    {
        let missing = self.missing_in_february();
        if past + missing < 61 {
            self.month((12 * past + 373) / 367)
        } else {
            self.month((12 * (past + missing) + 373) / 367)
        }
    }
}
