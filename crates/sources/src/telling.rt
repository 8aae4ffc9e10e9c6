ghost use Rattle.std.specs.Prelude.{◌≡◌, ◌<◌, nat_le};
ghost use Rattle.sources.specs.Board.{figures, nothing, tell_quota, tell_price, tell_final};
ghost use Rattle.sources.specs.Figures.{last_day};

use super::figures::{FinalPair, MonthPrice, QuotaFrom, YearFigures};
use super::held::Board;
use super::told::Told;
use amounts::Refusal;
use amounts::figures::{is_lawful_price, is_lawful_quota};
use calendar::days::{is_day, is_month, is_year};

// What is told is refused in the order of its own table, so each `tell` reads as its table does.
impl Board {
    // A board that was told nothing.
    pub fn new() -> Board
        ensures { figures result ≡ nothing }
    {
        Board {
            quotas: Told::new(),
            prices: Told::new(),
            pairs: Told::new(),
        }
    }

    // Takes the quota that holds from the day on, which is later than that of any quota told before.
    #[tactic(auto, using(crate::proofs::Quotas::rising_push))]
    pub fn tell_quota(&mut self, day: u16, quota: u32) -> Result<(), Refusal>
        ensures { (result, figures self.new) ≡ tell_quota day quota (figures self.old) }
    {
        if !is_day(day) {
            return Err(Refusal::BadDay);
        }
        if self.quotas.is_full() {
            return Err(Refusal::NoRoom);
        }
        if !is_lawful_quota(quota) || self.is_told_from(day) {
            return Err(Refusal::BadFigure);
        }
        self.quotas.push(QuotaFrom { from: day, quota });
        Ok(())
    }

    // Takes the price of a month that has none yet.
    pub fn tell_price(&mut self, month: u16, price: u32) -> Result<(), Refusal>
        ensures { (result, figures self.new) ≡ tell_price month price (figures self.old) }
    {
        if !is_month(month) {
            return Err(Refusal::BadDay);
        }
        if self.prices.is_full() {
            return Err(Refusal::NoRoom);
        }
        if !is_lawful_price(price) || self.prices.find(month).is_some() {
            return Err(Refusal::BadFigure);
        }
        self.prices.push(MonthPrice { month, price });
        Ok(())
    }

    // Takes the final quota and the market price of a year that has none yet.
    pub fn tell_final(&mut self, year: u16, quota: u32, price: u32) -> Result<(), Refusal>
        ensures { (result, figures self.new) ≡ tell_final year quota price (figures self.old) }
    {
        if !is_year(year) {
            return Err(Refusal::YearNotServed);
        }
        if self.pairs.is_full() {
            return Err(Refusal::NoRoom);
        }
        if !(is_lawful_quota(quota) && is_lawful_price(price)) || self.pairs.find(year).is_some() {
            return Err(Refusal::BadFigure);
        }
        let figures = YearFigures { quota, price };
        self.pairs.push(FinalPair { year, figures });
        Ok(())
    }

    // Is a quota of the day or of a later one told?
    fn is_told_from(&self, day: u16) -> bool
        requires { 0 < day }
        ensures { result ≡ nat_le day (last_day (figures self.now).quotas) }
    {
        self.quotas
            .as_slice()
            .last()
            .is_some_and(|last| day <= last.from)
    }
}
