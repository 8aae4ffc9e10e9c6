ghost use Rattle.std.specs.Prelude.{◌≡◌, ◌≤◌, if◌then◌else◌, Some, None, Ok, Err, IfOk, IfErr};
ghost use Rattle.std.specs.Option.{ok_or};
ghost use Rattle.calendar.specs.Days.{is_day, is_month, is_year};
ghost use Rattle.calendar.specs.Dates.{digits, number_in, month_figure, day_figure, month_figured, day_of_month, day_figured};
ghost use Rattle.calendar.specs.Dates.{year_text, month_text, date_text, year_figured, read_year, read_month, read_date};

use super::day::Day;
use super::month::Month;
use super::year::Year;

// Why a text is none of the calendar's dates.
#[derive(Clone, Copy, PartialEq, Debug)]
pub enum DateFault {
    NotDigits,
    NoSuchDate,
}

// The last digits of a number, as many as there are places.
#[tactic(auto, using(crate::proofs::Figures::write_step))]
fn digits<const N: usize>(number: u32) -> [u8; N]
    ensures { result ≡ digits N number }
{
    let mut text = [b'0'; N];
    let mut rest = number;
    // By index: after a loop over a reversed `iter_mut` nothing is known of what it wrote.
    for place in (0..N).rev() {
        text[place] = b'0' + (rest % 10) as u8;
        rest /= 10;
    }
    text
}

// The number that a text of `width` digits writes.
#[tactic(auto, using(crate::proofs::Figures::no_digit, crate::proofs::Figures::digit_read, crate::proofs::Figures::few, crate::proofs::Figures::one_more))]
fn number_in(width: usize, text: &[u8]) -> Result<u32, DateFault>
    requires { width ≤ 8 }
    ensures { result ≡ ok_or (number_in width text.now) DateFault.NotDigits }
{
    if text.len() != width {
        return Err(DateFault::NotDigits);
    }
    let mut number: u32 = 0;
    for &digit in text {
        number = number * 10 + char::from(digit).to_digit(10).ok_or(DateFault::NotDigits)?;
    }
    Ok(number)
}

impl Year {
    // The year with the number YYYY.
    #[tactic(auto, unfolding(crate::specs::Dates::year_figured))]
    fn figured(figure: u32) -> Result<Year, DateFault>
        ensures ok { IfOk result (λ year. year_figured figure ≡ Ok year.number) }
        ensures err { IfErr result (λ fault. year_figured figure ≡ Err fault) }
    {
        u16::try_from(figure)
            .ok()
            .and_then(Year::new)
            .ok_or(DateFault::NoSuchDate)
    }
}

impl Month {
    // It as the number YYYYMM.
    #[tactic(auto, unfolding(crate::specs::Dates::month_figure))]
    fn figure(self) -> u32
        ensures told { result ≡ month_figure self.number }
        ensures bound { result ≤ 208212 }
    {
        100 * u32::from(self.year().number) + u32::from(self.in_year())
    }

    // The month with the number YYYYMM.
    #[tactic(auto, unfolding(crate::specs::Dates::month_figured, crate::specs::Dates::year_figured))]
    fn figured(figure: u32) -> Result<Month, DateFault>
        ensures ok { IfOk result (λ month. month_figured figure ≡ Ok month.number) }
        ensures err { IfErr result (λ fault. month_figured figure ≡ Err fault) }
    {
        let year = Year::figured(figure / 100)?;
        let in_year = (figure % 100) as u16;
        if !(1..=12).contains(&in_year) {
            return Err(DateFault::NoSuchDate);
        }
        Ok(year.month(in_year))
    }

    // Its day with a number, counted from 1.
    #[tactic(auto, using(crate::proofs::Starts::month_within))]
    fn day(self, in_month: u16) -> Result<Day, DateFault>
        ensures ok { IfOk result (λ day. day_of_month in_month (Ok self.number) ≡ Ok day.number) }
        ensures err { IfErr result (λ fault. day_of_month in_month (Ok self.number) ≡ Err fault) }
    {
        if !(1..=self.length()).contains(&in_month) {
            return Err(DateFault::NoSuchDate);
        }
        Ok(Day {
            number: self.first_day().number + in_month - 1,
        })
    }
}

impl Day {
    // It as the number YYYYMMDD.
    #[tactic(auto, unfolding(crate::specs::Dates::day_figure))]
    fn figure(self) -> u32
        ensures { result ≡ day_figure self.number }
    {
        100 * self.month().figure() + u32::from(self.in_month())
    }

    // The day with the number YYYYMMDD.
    #[tactic(auto, unfolding(crate::specs::Dates::day_figured))]
    fn figured(figure: u32) -> Result<Day, DateFault>
        ensures ok { IfOk result (λ day. day_figured figure ≡ Ok day.number) }
        ensures err { IfErr result (λ fault. day_figured figure ≡ Err fault) }
    {
        Month::figured(figure / 100)?.day((figure % 100) as u16)
    }
}

// Reading and writing are one line at each width and type: a trait over the three would be longer.

// The year that four digits YYYY say.
pub fn read_year(text: &[u8]) -> Result<u16, DateFault>
    ensures { result ≡ read_year text.now }
{
    Ok(Year::figured(number_in(4, text)?)?.number)
}

// The month that six digits YYYYMM say.
pub fn read_month(text: &[u8]) -> Result<u16, DateFault>
    ensures { result ≡ read_month text.now }
{
    Ok(Month::figured(number_in(6, text)?)?.number)
}

// The day that eight digits YYYYMMDD say.
pub fn read_date(text: &[u8]) -> Result<u16, DateFault>
    ensures { result ≡ read_date text.now }
{
    Ok(Day::figured(number_in(8, text)?)?.number)
}

// A year as four digits YYYY.
#[tactic(auto, unfolding(crate::specs::Dates::year_text))]
pub fn write_year(year: u16) -> Option<[u8; 4]>
    ensures { result ≡ (if is_year year then Some (year_text year) else None) }
{
    Some(digits(u32::from(Year::new(year)?.number)))
}

// A month as six digits YYYYMM.
#[tactic(auto, unfolding(crate::specs::Dates::month_text))]
pub fn write_month(month: u16) -> Option<[u8; 6]>
    ensures { result ≡ (if is_month month then Some (month_text month) else None) }
{
    Some(digits(Month::new(month)?.figure()))
}

// A day as eight digits YYYYMMDD.
#[tactic(auto, unfolding(crate::specs::Dates::date_text))]
pub fn write_date(day: u16) -> Option<[u8; 8]>
    ensures { result ≡ (if is_day day then Some (date_text day) else None) }
{
    Some(digits(Day::new(day)?.figure()))
}
