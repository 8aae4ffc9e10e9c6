ghost use Rattle.std.specs.Prelude.{◌≡◌, ◌≤◌, IfSome, if◌then◌else◌, Some, None};
ghost use Rattle.meters.specs.Register.{readings, is_read, on_day, register_means};
ghost use Rattle.meters.specs.Readings.{register_additive, backward, register_small};

use super::held::Register;
use crate::meter::Meter;

impl Register {
    // The kWh of a day, if it is read: it has no marks but those of its hours, so it is read when it has as many.
    fn kwh_of(&self, day: u16) -> Option<u32>
        ensures told { result ≡ (if is_read (readings self.now) day then Some (on_day (readings self.now) day).total else None) }
        ensures small { IfSome result (λ kwh. kwh ≤ 250000) }
    {
        let (place, hours) = self.find(day)?;
        let read = self.days[place];
        read.has_all(hours).then_some(read.total)
    }
}

impl Meter for Register {
    ghost means = { register_means };

    ghost additive = { λ m. register_additive (readings m) };

    ghost silent = { λ m a b. backward (readings m) a b };

    ghost small = { register_small };

    fn kwh(&self, first: u16, last: u16) -> Option<u32> {
        if last < first {
            return None;
        }
        let mut sum = 0;
        for day in first..=last {
            sum += self.kwh_of(day)?;
        }
        Some(sum)
    }
}
