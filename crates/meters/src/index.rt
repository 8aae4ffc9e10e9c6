ghost use Rattle.std.specs.Prelude.{◌≡◌, ◌+◌, ◌-◌, ◌≤◌, IfOk, Some};
ghost use Rattle.amounts.specs.Tables.{first_refused};
ghost use Rattle.meters.specs.Spans.{day_count};
ghost use Rattle.meters.specs.Index.{index_means, index_table, known, share, WholePart, FirstDays, OutsideSilent};
ghost use Rattle.meters.specs.Indexes.{index_additive, index_silent, index_small};

use super::held::IndexMeter;
use super::meter::Meter;
use amounts::Refusal;
use calendar::days::is_day;

// The most days that a meter can have.
const MOST_DAYS: u16 = 366;

// The most kWh that can lie between two indexes. A limit of the meter: that of a place's year happens to be the same.
const MOST_KWH: u32 = 4_000_000;

impl IndexMeter {
    // The meter of the days from `first` to `last`, whose index stood at `before` and then at `after`.
    // All of its days together mean just the difference.
    #[tactic(auto, using(crate::specs::Indexes::index_whole))]
    pub fn new(first: u16, last: u16, before: u32, after: u32) -> Result<IndexMeter, Refusal>
        ensures answer { known result ≡ first_refused (index_table first last before after) (record { first = first; last = last; total = after - before }) }
        ensures whole { IfOk result (λ m. index_means m first last ≡ Some (after - before)) }
    {
        if !is_day(first) || !is_day(last) || last < first || last - first + 1 > MOST_DAYS {
            return Err(Refusal::BadDay);
        }
        if after < before || after - before > MOST_KWH {
            return Err(Refusal::TooMuchEnergy);
        }
        Ok(IndexMeter {
            first,
            last,
            total: after - before,
        })
    }

    // What the first `count` of its days have.
    fn first_days(&self, count: u16) -> u32
        requires { count ≤ day_count self.now.first self.now.last }
        ensures { result ≡ share self.now.total (day_count self.now.first self.now.last) count }
    {
        let all = u32::from(self.last - self.first + 1);
        self.total * u32::from(count) / all
    }
}

impl Meter for IndexMeter {
    ghost means = { index_means };

    ghost additive = { λ m. index_additive m.first m.last m.total m.forward };

    ghost silent = { λ m a b. index_silent m.first m.last m.total a b };

    ghost small = { λ m. index_small m.first m.last m.total m.small };

    fn kwh(&self, first: u16, last: u16) -> Option<u32> {
        // by `if`: the closure of a `then` would not know the test
        if self.first <= first && first <= last && last <= self.last {
            let before = self.first_days(first - self.first);
            let through = self.first_days(last - self.first + 1);
            Some(through - before)
        } else {
            None
        }
    }
}

// The laws of what a meter with two indexes means.
#[tactic(auto, using(crate::specs::Indexes::index_first, crate::specs::Indexes::index_early, crate::specs::Indexes::index_late, crate::specs::Shares::share_part))]
pub fn index_laws()
    ensures part { WholePart }
    ensures firsts { FirstDays }
    ensures outside { OutsideSilent }
{}

#[cfg(test)]
mod tests {
    use super::*;
    use std::test::Fail;

    #[test]
    fn january_of_a_hundred(rt: HostRuntime) -> Result<(), Fail> {
        let meter = IndexMeter::new(1, 31, 250, 350)?;
        assert_eq!(rt; meter.kwh(1, 10), Some(32));
        assert_eq!(rt; meter.kwh(11, 31), Some(68));
        assert_eq!(rt; meter.kwh(1, 31), Some(100));
        assert_eq!(rt; meter.kwh(2, 2), Some(3));
        Ok(())
    }

    #[test]
    fn silent_outside_and_reversed(rt: HostRuntime) -> Result<(), Fail> {
        let meter = IndexMeter::new(10, 40, 0, 100)?;
        assert_eq!(rt; meter.kwh(9, 20), None);
        assert_eq!(rt; meter.kwh(20, 41), None);
        assert_eq!(rt; meter.kwh(50, 60), None);
        assert_eq!(rt; meter.kwh(20, 19), None);
        Ok(())
    }

    // What refuses the meter, if anything does.
    fn refusal(first: u16, last: u16, before: u32, after: u32) -> Option<Refusal> {
        IndexMeter::new(first, last, before, after).err()
    }

    #[test]
    fn days_of_a_meter(rt: HostRuntime) {
        assert_eq!(rt; refusal(1, 366, 0, 0), None);
        assert_eq!(rt; refusal(1, 367, 0, 0), Some(Refusal::BadDay));
        assert_eq!(rt; refusal(23_376, 23_377, 0, 0), Some(Refusal::BadDay));
        assert_eq!(rt; refusal(0, 5, 0, 0), Some(Refusal::BadDay));
        assert_eq!(rt; refusal(6, 5, 0, 0), Some(Refusal::BadDay));
    }

    #[test]
    fn indexes_of_a_meter(rt: HostRuntime) -> Result<(), Fail> {
        let meter = IndexMeter::new(1, 366, 7, 4_000_007)?;
        assert_eq!(rt; meter.kwh(1, 366), Some(4_000_000));
        assert_eq!(rt; refusal(1, 31, 7, 4_000_008), Some(Refusal::TooMuchEnergy));
        assert_eq!(rt; refusal(1, 31, 8, 7), Some(Refusal::TooMuchEnergy));
        assert_eq!(rt; refusal(0, 31, 8, 7), Some(Refusal::BadDay));
        Ok(())
    }
}
