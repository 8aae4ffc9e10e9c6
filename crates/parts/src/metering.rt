ghost use Rattle.std.specs.Prelude.{◌≡◌, ◌*◌, ◌≤◌};
ghost use Rattle.parts.specs.Metering.{CutAddsUp, PartsAddUp, kwh_sum, metered, part_by, used};

use super::types::{Part, Parts};
use amounts::figures::charged;
use meters::meter::Meter;

impl Part {
    // The part with the kWh that the meter means for its days. Silence counts as 0, which never shows.
    fn by_meter<M: Meter>(self, meter: &M) -> Part
        ensures { result ≡ part_by (M.means meter.now) self }
    {
        let kwh = meter.kwh(self.first, self.last).unwrap_or(0);
        Part {
            kwh,
            charged: charged(kwh, self.percent),
            ..self
        }
    }
}

impl Parts {
    // The parts in use, in the order of their days.
    pub fn used(&self) -> &[Part]
        ensures { result.now ≡ used self.now }
    {
        &self.list[..usize::from(self.count).min(4)]
    }

    // The parts in use with the kWh that the meter means for their days.
    pub fn metered<M: Meter>(self, meter: &M) -> Parts
        ensures { result ≡ metered (M.means meter.now) self }
    {
        let mut list = self.list;
        for part in &mut list[..usize::from(self.count).min(4)] {
            *part = part.by_meter(meter);
        }
        Parts { list, ..self }
    }

    // The kWh of the parts in use, before exemption.
    pub fn kwh(self) -> u64
        ensures is { result ≡ kwh_sum self }
        ensures bound { result ≤ 17179869180 }
    {
        let mut sum = 0;
        for part in self.used() {
            sum += u64::from(part.kwh);
        }
        sum
    }
}

// No kWh is lost or counted twice between the parts of days that a meter tells.
pub fn metering_laws()
    ensures parts { PartsAddUp }
    ensures cut { CutAddsUp }
{}
