ghost use Rattle.std.specs.Prelude.{◌≡◌, ◌≤◌, ◌&&◌, if◌then◌else◌, ◌==◌, length, nat_le};
ghost use Rattle.parts.specs.Metering.{kwh_sum};
ghost use Rattle.rules.specs.Books.{interval_of, is_settled, settled_year, shared_day, year_kwh};

use rules::{Interval, Status, Supply};

// Place and year are fields of records and of commands, one by one: a type of both would be taken apart at each.

// Is the interval one of this place and year?
fn is_of(interval: &Interval, place: u16, year: u16) -> bool
    ensures { result ≡ interval_of place year interval.now }
{
    interval.place == place && interval.year == year
}

// Is it settled?
fn is_settled(interval: &Interval) -> bool
    ensures { result ≡ is_settled interval.now.status }
{
    matches!(interval.status, Status::Settled)
}

// Is it one of the supply's place with a day of the supply?
fn shares(interval: &Interval, supply: Supply) -> bool
    ensures { result ≡ (interval.now.place == supply.place && (nat_le interval.now.first supply.last && nat_le supply.first interval.now.last)) }
{
    interval.place == supply.place && interval.first <= supply.last && supply.first <= interval.last
}

// The kWh that it adds to the place's year.
fn kwh_in(interval: &Interval, place: u16, year: u16) -> u64
    ensures is { result ≡ (if interval_of place year interval.now then kwh_sum interval.now.parts else 0) }
    ensures bound { result ≤ 17179869180 }
{
    if is_of(interval, place, year) {
        interval.parts.kwh()
    } else {
        0
    }
}

// Is the place's year settled?
pub fn is_year_settled(intervals: &[Interval], place: u16, year: u16) -> bool
    ensures { result ≡ settled_year place year intervals.now }
{
    intervals.iter().any(|interval| is_of(interval, place, year) && is_settled(interval))
}

// Is a day of the supply billed to its place already?
pub fn is_day_shared(intervals: &[Interval], supply: Supply) -> bool
    ensures { result ≡ shared_day supply.place supply.first supply.last intervals.now }
{
    intervals.iter().any(|interval| shares(interval, supply))
}

// The kWh kept of the place's year.
pub fn kwh_of_year(intervals: &[Interval], place: u16, year: u16) -> u64
    requires { length intervals.now ≤ 16384 }
    ensures { result ≡ year_kwh place year intervals.now }
{
    intervals
        .iter()
        .map(|interval| kwh_in(interval, place, year))
        .sum()
}
