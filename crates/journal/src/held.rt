ghost use Rattle.std.specs.Prelude.{◌≡◌, ◌^◌, ◌≤◌, false};
ghost use Rattle.rules.specs.Issue.{bad_days};

use books::{Book, Enrolment};
use parts::Parts;
use parts::pricing::Priced;
use rules::{Figures, Interval, Line, Supply};

// Intervals and lines over the caller's storage, the years served and the next line number, which is 2^32 when
// the numbers are used up.
#[derive(Drop)]
pub struct Journal<'a> {
    pub(crate) intervals: Book<'a, Interval>,
    pub(crate) lines: Book<'a, Line>,
    pub(crate) first_year: u16,
    pub(crate) next: u64,
    pub(crate) figures: [Option<Figures>; 4],
    ghost years: { first_year ≤ 2082 },
    ghost numbers: { next ≤ 2 ^ 32 },
    ghost few: { intervals.room ≤ 16384 },
}

// A supply that may be billed: its enrolment, its year, and the kWh that the year has already.
#[derive(Clone, Copy)]
pub struct Admitted {
    pub enrolment: Enrolment,
    pub year: u16,
    pub kwh: u64,
}

// What is asked of source and meter: the supply of an enrolled place, whose days are good.
#[derive(Drop)]
pub(crate) struct Inquiry<'a, S, M> {
    pub supply: Supply,
    pub enrolment: Enrolment,
    pub source: &'a S,
    pub meter: &'a M,
    ghost good: { bad_days supply ≡ false },
}

// What source and meter told of it: its parts, without kWh yet, and its price.
#[derive(Clone, Copy)]
pub struct Measured {
    pub parts: Parts,
    pub priced: Priced,
}
