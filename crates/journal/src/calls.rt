ghost use Rattle.std.specs.Prelude.{◌≡◌, length};
ghost use Rattle.books.specs.Roll.{enrolled, places};
ghost use Rattle.rules.specs.Books.{setup};
ghost use Rattle.rules.specs.Issue.{asked, issue};
ghost use Rattle.journal.specs.Model.{model};
ghost use Rattle.journal.specs.Stages.{Planned};

use super::held::{Inquiry, Journal};
use amounts::Refusal;
use books::{Book, Enrolment, Roll};
use meters::meter::Meter;
use rules::{Interval, Line, Status, Supply};
use sources::current::Current;

// The most intervals that a journal uses of longer storage.
const MAX_INTERVALS: usize = 16_384;

// The most lines.
const MAX_LINES: usize = 65_536;

impl<'a> Journal<'a> {
    // An empty journal over the storage, whatever that held, from a first year and a first line number on.
    pub fn setup(
        intervals: &'a mut [Interval],
        lines: &'a mut [Line],
        first_year: u16,
        first_line: u32,
    ) -> Journal<'a>
        ensures { model result ≡ setup (length intervals.old) (length lines.old) first_year first_line }
    {
        Journal {
            intervals: Book::new(intervals, MAX_INTERVALS),
            lines: Book::new(lines, MAX_LINES),
            first_year: first_year.clamp(2019, 2079),
            next: u64::from(first_line).max(1),
            figures: [None; 4],
        }
    }

    // The interval that an issue writes, or its refusal.
    fn plan<S: Current, M: Meter>(
        &self,
        enrolment: Option<Enrolment>,
        source: &S,
        meter: &M,
        supply: Supply,
    ) -> Result<Interval, Refusal>
        ensures { Planned (asked supply enrolment (S.quota source.now) (S.price source.now) (M.means meter.now)) (model self.now) result }
    {
        let admitted = self.admitted(enrolment, supply)?;
        let inquiry = Inquiry {
            supply,
            enrolment: admitted.enrolment,
            source,
            meter,
        };
        let measured = inquiry.measured(admitted.kwh)?;
        self.bookable(&measured)?;
        Ok(Interval {
            number: self.next as u32,
            place: supply.place,
            year: admitted.year,
            first: supply.first,
            last: supply.last,
            price: measured.priced.price,
            price_month: measured.priced.month,
            status: Status::Standing,
            parts: measured.parts.metered(meter),
        })
    }

    // Bills a supply: one standing interval and an energy line for each of its parts. The answer is the interval's number.
    pub fn issue<S: Current, M: Meter>(
        &mut self,
        roll: &Roll,
        source: &S,
        meter: &M,
        supply: Supply,
    ) -> Result<u32, Refusal>
        ensures answers { (result, model self.new) ≡ issue (asked supply (enrolled (places roll.now) supply.place) (S.quota source.now) (S.price source.now) (M.means meter.now)) (model self.old) }
    {
        let enrolment = roll.enrolment(supply.place);
        let interval = self.plan(enrolment, source, meter, supply)?;
        self.book(interval);
        Ok(interval.number)
    }
}
