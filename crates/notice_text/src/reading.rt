// Lines of a notice, read as entries.
ghost use Rattle.std.specs.Prelude.{◌≡◌, nat_lt};
ghost use Rattle.std.specs.Result.{result_ok};
ghost use Rattle.text.specs.Taken.{left};
ghost use Rattle.notice_text.specs.Lines.{by_letter, final_line, letter, line_entry, price, price_line, quota, quota_line, such};

use crate::entry::{Dates, Entry, FaultyField};
use crate::line::LineFields;
use amounts::figures::{is_lawful_price, is_lawful_quota};
use calendar::dates::{DateFault, read_date, read_month, read_year};
use sources::figures::{FinalPair, MonthPrice, QuotaFrom, YearFigures};
use text::{Line, read_number};

// A date that was read, where it is later than the last one of its letter.
fn later(last: u16, read: Result<u16, DateFault>) -> Option<u16>
    ensures { result ≡ such (nat_lt last) (result_ok read) }
{
    read.ok().filter(|date| last < *date)
}

// The quota that a field writes, where it is in its range.
fn read_quota(text: &[u8]) -> Option<u32>
    ensures { result ≡ quota text.now }
{
    read_number(text).filter(|quota| is_lawful_quota(*quota))
}

// The price that a field writes, where it is in its range.
fn read_price(text: &[u8]) -> Option<u32>
    ensures { result ≡ price text.now }
{
    read_number(text).filter(|price| is_lawful_price(*price))
}

// The letter that a field is, where it is one byte.
fn read_letter(text: &[u8]) -> Option<u8>
    ensures { result ≡ letter text.now }
{
    match text {
        [byte] => Some(*byte),
        _ => None,
    }
}

// A reader for each letter: what they share are `next`, `later` and `close`, and a generic one would take three functions.

// `Q,YYYYMMDD,quota`, behind its letter.
fn read_quota_line(mut line: LineFields<'_>, last: u16) -> Result<Entry, FaultyField>
    ensures { result ≡ quota_line line.entry.ended last (left line.entry.fields) }
{
    let from = later(last, read_date(line.next(2)?)).ok_or(2u32)?;
    let quota = read_quota(line.next(3)?).ok_or(3u32)?;
    line.close(4)?;
    Ok(Entry::Quota(QuotaFrom { from, quota }))
}

// `P,YYYYMM,price`, behind its letter.
fn read_price_line(mut line: LineFields<'_>, last: u16) -> Result<Entry, FaultyField>
    ensures { result ≡ price_line line.entry.ended last (left line.entry.fields) }
{
    let month = later(last, read_month(line.next(2)?)).ok_or(2u32)?;
    let price = read_price(line.next(3)?).ok_or(3u32)?;
    line.close(4)?;
    Ok(Entry::Price(MonthPrice { month, price }))
}

// `F,YYYY,quota,price`, behind its letter.
fn read_final_line(mut line: LineFields<'_>, last: u16) -> Result<Entry, FaultyField>
    ensures { result ≡ final_line line.entry.ended last (left line.entry.fields) }
{
    let year = later(last, read_year(line.next(2)?)).ok_or(2u32)?;
    let quota = read_quota(line.next(3)?).ok_or(3u32)?;
    let price = read_price(line.next(4)?).ok_or(4u32)?;
    line.close(5)?;
    let figures = YearFigures { quota, price };
    Ok(Entry::Final(FinalPair { year, figures }))
}

// The fields behind a line's letter, by that letter: of three, a match is plainer than a table of readers.
fn read_by_letter(letter: u8, line: LineFields<'_>, last: Dates) -> Result<Entry, FaultyField>
    ensures { result ≡ by_letter line.entry.ended last letter (left line.entry.fields) }
{
    match letter as char {
        'Q' => read_quota_line(line, last.day),
        'P' => read_price_line(line, last.month),
        'F' => read_final_line(line, last.year),
        _ => Err(1),
    }
}

// The entry that a line states, after those with the last dates.
#[tactic(auto, unfolding(crate::specs::Lines::line_entry))]
pub fn read_line(line: Line<'_>, last: Dates) -> Result<Entry, FaultyField>
    ensures { result ≡ line_entry line.entry.ended last line.entry.text.now }
{
    let mut fields = LineFields::of(line);
    let letter = read_letter(fields.next(1)?).ok_or(1u32)?;
    read_by_letter(letter, fields, last)
}
