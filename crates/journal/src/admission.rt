ghost use Rattle.std.specs.Prelude.{◌≡◌, false, OnOk};
ghost use Rattle.amounts.specs.Tables.{first_refused};
ghost use Rattle.rules.specs.Books.{serves};
ghost use Rattle.rules.specs.Issue.{bad_days};
ghost use Rattle.journal.specs.Model.{model};
ghost use Rattle.journal.specs.Stages.{admission, admitted_as};

use super::held::{Admitted, Journal};
use super::survey::{is_day_shared, is_year_settled, kwh_of_year};
use amounts::Refusal;
use books::Enrolment;
use calendar::days::{is_day, year_of};
use rules::Supply;

// The most days of one supply.
const MAX_DAYS: u16 = 92;

// A day outside the calendar, the last before the first, too many days, or issued before the last day: one row of the
// table of an issue. An enrolment and a meter have rows of their own, alike in their first three tests.
fn has_bad_days(supply: Supply) -> bool
    ensures { result ≡ bad_days supply }
{
    if !is_day(supply.first) || !is_day(supply.last) || !is_day(supply.issued) {
        return true;
    }
    supply.last < supply.first
        || supply.last - supply.first >= MAX_DAYS
        || supply.issued < supply.last
}

impl<'a> Journal<'a> {
    // Is it the first year or one of the next three, as far as 2082?
    fn serves_year(&self, year: u16) -> bool
        ensures { result ≡ serves (model self.now) year }
    {
        (self.first_year..=self.first_year + 3).contains(&year) && year <= 2082
    }

    // May the supply be billed at all?
    pub(crate) fn admitted(
        &self,
        enrolment: Option<Enrolment>,
        supply: Supply,
    ) -> Result<Admitted, Refusal>
        ensures told { result ≡ first_refused (admission enrolment supply (model self.now)) (admitted_as enrolment supply (model self.now)) }
        ensures days { OnOk result (bad_days supply ≡ false) }
    {
        let enrolment = enrolment.ok_or(Refusal::NoPlace)?;
        if has_bad_days(supply) {
            return Err(Refusal::BadDay);
        }
        let year = year_of(supply.first).unwrap();
        if year != year_of(supply.last).unwrap() {
            return Err(Refusal::TwoYears);
        }
        if !self.serves_year(year) {
            return Err(Refusal::YearNotServed);
        }
        let intervals = self.intervals.as_slice();
        if is_year_settled(intervals, supply.place, year) {
            return Err(Refusal::SettledYear);
        }
        if is_day_shared(intervals, supply) {
            return Err(Refusal::SharedDay);
        }
        Ok(Admitted {
            enrolment,
            year,
            kwh: kwh_of_year(intervals, supply.place, year),
        })
    }
}
