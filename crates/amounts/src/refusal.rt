ghost use Rattle.std.specs.Prelude.{◌≡◌};
ghost use Rattle.amounts.specs.Refusals.{number, fault};

// Why a call was refused. A refused call changes nothing. It is answered by its number, so it has no text of its own.
#[derive(Clone, Copy, PartialEq, Debug)]
pub enum Refusal {
    NoPlace,
    BadDay,
    TwoYears,
    YearNotServed,
    SettledYear,
    SharedDay,
    NoQuota,
    TooManyParts,
    NoPrice,
    NoInterval,
    WrongStatus,
    TooEarly,
    NotFixed,
    AlreadyFixed,
    NoFinals,
    NoLot,
    NothingToSettle,
    UnsettledInterval,
    MeterSilent,
    TooMuchEnergy,
    NoRoom,
    NumbersUsedUp,
    BadLot,
    BadPercent,
    BadHour,
    BadFigure,
    FaultyNotice { line: u32, field: u32 },
}

impl Refusal {
    // The refusal's number in the refusal table. (An enum with fields has no `as u8`, and a `From` would be this match.)
    pub fn number(self) -> u8
        ensures { result ≡ number self }
    {
        match self {
            Refusal::NoPlace => 1,
            Refusal::BadDay => 2,
            Refusal::TwoYears => 3,
            Refusal::YearNotServed => 4,
            Refusal::SettledYear => 5,
            Refusal::SharedDay => 6,
            Refusal::NoQuota => 7,
            Refusal::TooManyParts => 8,
            Refusal::NoPrice => 9,
            Refusal::NoInterval => 10,
            Refusal::WrongStatus => 11,
            Refusal::TooEarly => 12,
            Refusal::NotFixed => 13,
            Refusal::AlreadyFixed => 14,
            Refusal::NoFinals => 15,
            Refusal::NoLot => 16,
            Refusal::NothingToSettle => 17,
            Refusal::UnsettledInterval => 18,
            Refusal::MeterSilent => 19,
            Refusal::TooMuchEnergy => 20,
            Refusal::NoRoom => 21,
            Refusal::NumbersUsedUp => 22,
            Refusal::BadLot => 23,
            Refusal::BadPercent => 24,
            Refusal::BadHour => 25,
            Refusal::BadFigure => 26,
            Refusal::FaultyNotice { .. } => 27,
        }
    }

    // The line and field that a faulty notice is refused at.
    pub fn fault(self) -> Option<(u32, u32)>
        ensures { result ≡ fault self }
    {
        match self {
            Refusal::FaultyNotice { line, field } => Some((line, field)),
            _ => None,
        }
    }
}

#[cfg(test)]
mod tests {
    use super::*;

    #[test]
    fn refusals_have_numbers(rt: HostRuntime) {
        let faulty = Refusal::FaultyNotice { line: 3, field: 2 };
        assert_eq!(rt; Refusal::NoPlace.number(), 1);
        assert_eq!(rt; Refusal::BadFigure.number(), 26);
        assert_eq!(rt; faulty.number(), 27);
        assert_eq!(rt; faulty.fault(), Some((3, 2)));
        assert_eq!(rt; Refusal::BadFigure.fault(), None);
    }
}
