ghost use Rattle.std.specs.Prelude.{◌≡◌, ◌+◌, ◌-◌, ◌^◌, ◌<◌, ◌≤◌, false, IfSome, if◌then◌else◌, Some, None, ◌==◌, count_ones, slice_index_or, slice_set};
ghost use Rattle.amounts.specs.Tables.{first_refused};
ghost use Rattle.calendar.specs.Days.{new_year};
ghost use Rattle.calendar.specs.Hours.{hours_of};
ghost use Rattle.meters.specs.Marks.{marked, unread_day, with_hour};
ghost use Rattle.meters.specs.Register.{readings, of_year, read_hour, register_table, unread, opened};

use super::day::Day;
use super::held::Register;
use amounts::Refusal;
use calendar::days::{first_day_of_year, is_year, year_of};
use calendar::hours::hours_of;

// A day with no hour read.
const UNREAD_DAY: Day = Day { total: 0, marks: 0 };

// The most kWh that one hour can have.
const MOST_KWH: u32 = 10_000;

impl Day {
    // Is the hour read?
    fn has(self, hour: u8) -> bool
        requires { hour < 32 }
        ensures { result ≡ marked self hour }
    {
        self.marks >> hour & 1 == 1
    }

    // Has it as many marks as there are hours?
    pub(super) fn has_all(self, hours: u8) -> bool
        ensures { result ≡ (count_ones self.marks == hours) }
    {
        self.marks.count_ones() == u32::from(hours)
    }

    // The day with one hour more.
    fn with_hour(self, hour: u8, kwh: u32) -> Day
        requires { (hour < 32) × (self.total + kwh < 2 ^ 32) }
        ensures { result ≡ with_hour hour kwh self }
    {
        Day {
            total: self.total + kwh,
            marks: self.marks | 1 << hour,
        }
    }
}

impl Register {
    // The register of a year, with no hour read.
    #[tactic(auto, unfolding(crate::specs::Register::unread))]
    pub fn new(year: u16) -> Result<Register, Refusal>
        ensures { opened result ≡ first_refused (register_table year) (unread year) }
    {
        if !is_year(year) {
            return Err(Refusal::YearNotServed);
        }
        Ok(Register {
            year,
            days: [UNREAD_DAY; 366],
        })
    }

    // Reads an hour of a day, counted from 0: once, and within the day's hours.
    pub fn read_hour(&mut self, day: u16, hour: u8, kwh: u32) -> Result<(), Refusal>
        ensures { (result, readings self.new) ≡ read_hour day hour kwh (readings self.old) }
    {
        let (place, hours) = self.find(day).ok_or(Refusal::BadDay)?;
        if hours <= hour || self.days[place].has(hour) || kwh > MOST_KWH {
            return Err(Refusal::BadHour);
        }
        self.keep(place, hour, kwh);
        Ok(())
    }

    // Where a day of the register's year stands in the table, and how many hours it has.
    pub(super) fn find(&self, day: u16) -> Option<(usize, u8)>
        ensures told { result ≡ (if of_year self.now.year day then Some (day - new_year self.now.year, hours_of day) else None) }
        ensures place { IfSome result (λ p. (p.0 < 366) × (new_year self.now.year + p.0 ≡ day) × (p.1 ≤ 25)) }
    {
        if year_of(day)? != self.year {
            return None;
        }
        let first = first_day_of_year(self.year)?;
        let place = day - first;
        Some((usize::from(place), hours_of(day)?))
    }

    // Keeps the reading of an hour that is not read yet.
    fn keep(&mut self, place: usize, hour: u8, kwh: u32)
        requires place { place < 366 }
        requires hour { hour < hours_of (new_year self.old.year + place) }
        requires unread { marked (slice_index_or self.old.days place unread_day) hour ≡ false }
        requires few { kwh ≤ 10000 }
        ensures year { self.new.year ≡ self.old.year }
        ensures days { self.new.days ≡ slice_set self.old.days place (with_hour hour kwh (slice_index_or self.old.days place unread_day)) }
    {
        self.days[place] = self.days[place].with_hour(hour, kwh);
    }
}
