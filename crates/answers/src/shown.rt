// How days, months and the parts of a record are shown.
ghost use Rattle.std.specs.Prelude.{◌≡◌, Some};
ghost use Rattle.std.specs.List.{flat_map};
ghost use Rattle.std.specs.Str.{IsUtf8};
ghost use Rattle.text.specs.Pieces.{led};
ghost use Rattle.answers.specs.Answers.{part_fields};
ghost use Rattle.answers.specs.Rows.{date_digits, kind_letter, month_digits, status_word};

use calendar::dates::{write_date, write_month};
use parts::Part;
use rules::{Kind, Status};
use std::{fmt, str};

// A day as YYYYMMDD; zeros where it is none of the calendar.
#[derive(Clone, Copy)]
pub struct Day(pub u16);

// A month as YYYYMM; a type beside `Day`, since one with the width would need an invariant that its bytes are text; zeros where it is none of the calendar.
#[derive(Clone, Copy)]
pub struct Month(pub u16);

// The fields of some parts, each behind a comma.
#[derive(Clone, Copy)]
pub struct PartFields<'a>(pub &'a [Part]);

fn as_text(digits: &[u8]) -> &str
    requires { IsUtf8 digits.now }
    ensures { result.now ≡ digits.now }
{
    str::from_utf8(digits).unwrap()
}

// Functions, since kinds and statuses belong to the rules, which show nothing.

pub fn kind_letter(kind: Kind) -> &'static str
    ensures { result.now ≡ kind_letter kind }
{
    match kind {
        Kind::Energy => "E",
        Kind::Settlement => "S",
        Kind::TakeBack => "T",
    }
}

pub fn status_word(status: Status) -> &'static str
    ensures { result.now ≡ status_word status }
{
    match status {
        Status::Standing => "standing",
        Status::UnderCorrection => "correction",
        Status::Settled => "settled",
    }
}

impl fmt::Display for Day {
    ghost output = { λ day. Some (date_digits day.0) };

    #[tactic(auto, using(crate::proofs::Digits::date_is_text))]
    fn fmt<W: fmt::Write>(&self, f: &mut fmt::Formatter<W>) -> fmt::Result {
        match write_date(self.0) {
            Some(digits) => f.write_str(as_text(&digits)),
            None => f.write_str("00000000"),
        }
    }
}

impl fmt::Display for Month {
    ghost output = { λ month. Some (month_digits month.0) };

    #[tactic(auto, using(crate::proofs::Digits::month_is_text))]
    fn fmt<W: fmt::Write>(&self, f: &mut fmt::Formatter<W>) -> fmt::Result {
        match write_month(self.0) {
            Some(digits) => f.write_str(as_text(&digits)),
            None => f.write_str("000000"),
        }
    }
}

impl fmt::Display for PartFields<'_> {
    ghost output = { λ parts. Some (led 44 (flat_map part_fields parts.0.now)) };

    fn fmt<W: fmt::Write>(&self, f: &mut fmt::Formatter<W>) -> fmt::Result {
        for part in self.0 {
            let first = Day(part.first);
            let last = Day(part.last);
            let Part {
                quota,
                percent,
                kwh,
                charged,
                ..
            } = *part;
            write!(f, ",{first},{last},{quota},{percent},{kwh},{charged}")?;
        }
        Ok(())
    }
}
