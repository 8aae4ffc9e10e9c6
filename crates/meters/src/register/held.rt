ghost use Rattle.std.specs.Prelude.{◌≡◌, ℕ, ◌+◌, ◌*◌, ◌^◌, ◌<◌, ◌≤◌, length, count_ones, slice_index_or};
ghost use Rattle.calendar.specs.Days.{new_year};
ghost use Rattle.calendar.specs.Hours.{hours_of};
ghost use Rattle.meters.specs.Marks.{unread_day};

use super::day::Day;

// A meter that is read hour by hour for one year: a table of its days, from the year's first day on, of fixed size.
#[derive(Clone, Copy)]
pub struct Register {
    pub(crate) year: u16,
    pub(crate) days: [Day; 366],
    ghost from: { 2019 ≤ year },
    ghost to: { year ≤ 2082 },
    ghost room: { length days ≡ 366 },
    ghost within: { (k : ℕ) → (slice_index_or days k unread_day).marks < 2 ^ hours_of (new_year year + k) },
    ghost small: { (k : ℕ) → (slice_index_or days k unread_day).total ≤ 10000 * count_ones (slice_index_or days k unread_day).marks },
}
