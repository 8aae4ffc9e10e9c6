ghost use Rattle.std.specs.Prelude.{◌≡◌, ◌≤◌, is_some, IfSome};
ghost use Rattle.calendar.specs.Days.{is_month, leap, year_of_month, month_in_year, month_length, days_before, month_start};

use super::day::Day;
use super::days::is_month;
use super::year::Year;

// One of the months 1 to 768.
#[derive(Clone, Copy)]
pub(crate) struct Month {
    pub(crate) number: u16,
    ghost in_range: { (1 ≤ number) × (number ≤ 768) },
}

impl Month {
    pub(crate) fn new(number: u16) -> Option<Month>
        ensures tested { is_some result ≡ is_month number }
        ensures numbered { IfSome result (λ month. month.number ≡ number) }
    {
        // By `if`: the closure of a `then` would not know the test.
        if is_month(number) {
            Some(Month { number })
        } else {
            None
        }
    }

    #[tactic(auto, unfolding(crate::specs::Days::year_of_month))]
    pub(crate) fn year(self) -> Year
        ensures { result.number ≡ year_of_month self.number }
    {
        Year {
            number: 2019 + (self.number - 1) / 12,
        }
    }

    // Which month of its year it is, from 1 to 12.
    #[tactic(auto, unfolding(crate::specs::Days::month_in_year))]
    pub(crate) fn in_year(self) -> u16
        ensures told { result ≡ month_in_year self.number }
        ensures bound { (1 ≤ result) × (result ≤ 12) }
    {
        (self.number - 1) % 12 + 1
    }

    // How many days of its year come before it.
    // Were February 30 days long, the months would be spread evenly.
    #[tactic(auto, using(crate::proofs::Months::spread_is, std::proofs::lemmas::Bool::Decides::nat_tests))]
    fn days_before(self) -> u16
        ensures told { result ≡
            days_before (leap (year_of_month self.number)) (month_in_year self.number) }
        ensures bound { result ≤ 335 }
    {
        let in_year = self.in_year();
        let spread = (367 * in_year - 362) / 12;
        if in_year <= 2 {
            spread
        } else {
            spread - self.year().missing_in_february()
        }
    }

    // Its first day.
    #[tactic(auto, unfolding(crate::specs::Days::new_year, crate::specs::Days::month_start))]
    pub(crate) fn first_day(self) -> Day
        ensures { result.number ≡ month_start self.number }
    {
        Day {
            number: self.year().first_day().number + self.days_before(),
        }
    }

    // The number of its days.
    #[tactic(auto, using(crate::proofs::Months::length_is, std::proofs::lemmas::Bool::Decides::nat_tests), unfolding(crate::specs::Days::month_length))]
    pub(crate) fn length(self) -> u16
        ensures told { result ≡ month_length self.number }
        ensures bound { result ≤ 31 }
    {
        match self.in_year() {
            2 => 30 - self.year().missing_in_february(),
            4 | 6 | 9 | 11 => 30,
            _ => 31,
        }
    }
}
