ghost use Rattle.std.specs.Prelude.{◌≡◌, ◌≤◌, is_some, IfSome};
ghost use Rattle.calendar.specs.Days.{is_day, year_of, month_of, day_in_month};

use super::days::is_day;
use super::month::Month;
use super::year::Year;

// One of the days 1 to 23,376. Day, Month and Year each have methods of their own, and share one test of a range.
#[derive(Clone, Copy)]
pub(crate) struct Day {
    pub(crate) number: u16,
    ghost in_range: { (1 ≤ number) × (number ≤ 23376) },
}

impl Day {
    pub(crate) fn new(number: u16) -> Option<Day>
        ensures tested { is_some result ≡ is_day number }
        ensures numbered { IfSome result (λ day. day.number ≡ number) }
    {
        // By `if`: the closure of a `then` would not know the test.
        if is_day(number) {
            Some(Day { number })
        } else {
            None
        }
    }

    #[tactic(auto, unfolding(crate::specs::Days::year_of))]
    pub(crate) fn year(self) -> Year
        ensures { result.number ≡ year_of self.number }
    {
        let since_2017 = self.number + 729;
        Year {
            number: 2017 + 4 * (since_2017 / 1461) + (since_2017 % 1461 / 365).min(3),
        }
    }

    #[tactic(auto, using(crate::proofs::Years::place_in_year), unfolding(crate::specs::Days::month_of))]
    pub(crate) fn month(self) -> Month
        ensures { result.number ≡ month_of self.number }
    {
        let year = self.year();
        year.month_after(self.number - year.first_day().number)
    }

    // Which day of its month it is, from 1.
    #[tactic(auto, using(crate::proofs::Starts::month_begun, crate::proofs::Starts::day_high, crate::proofs::Starts::length_high), unfolding(crate::specs::Days::day_in_month))]
    pub(crate) fn in_month(self) -> u16
        ensures told { result ≡ day_in_month self.number }
        ensures bound { result ≤ 31 }
    {
        self.number - self.month().first_day().number + 1
    }
}
