ghost use Rattle.std.specs.Prelude.{◌≡◌, ◌≤◌};
ghost use Rattle.calendar.specs.Days.{month_number};
ghost use Rattle.sources.specs.Board.{figures, forget};
ghost use Rattle.sources.specs.Figures.{unreplaced};

use super::held::Board;
use amounts::Refusal;
use calendar::days::first_day_of_year;

// January of a year, as the number of the month: calendar gives first days, no first month.
#[tactic(auto, unfolding(calendar::specs::Days::month_number))]
fn january(year: u16) -> u16
    requires { (2019 ≤ year) × (year ≤ 2082) }
    ensures { result ≡ month_number year 1 }
{
    12 * (year - 2019) + 1
}

impl Board {
    // Forgets what was told for earlier years: the prices and the final pairs, and the quotas that another replaces on or
    // before 1 January.
    pub fn forget(&mut self, year: u16) -> Result<(), Refusal>
        ensures { (result, figures self.new) ≡ forget year (figures self.old) }
    {
        let new_year = first_day_of_year(year).ok_or(Refusal::YearNotServed)?;
        self.forget_quotas(new_year);
        self.prices.keep_from(january(year));
        self.pairs.keep_from(year);
        Ok(())
    }

    // Drops the quotas that another replaces on or before the day.
    #[tactic(auto, using(crate::proofs::Quotas::rising_kept, crate::proofs::Quotas::held_kept, crate::proofs::Quotas::none_held))]
    fn forget_quotas(&mut self, day: u16)
        ensures { figures self.new ≡ record (figures self.old) { quotas = unreplaced day (figures self.old).quotas } }
    {
        if let Some(told) = self.holding(day) {
            self.quotas.keep_from(told.from);
        }
    }
}
