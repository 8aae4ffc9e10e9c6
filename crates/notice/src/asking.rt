// Questions to a notice: a faulty notice is silent.
ghost use Rattle.std.specs.Prelude.{◌≡◌};
ghost use Rattle.sources.specs.Figures.{quota_on, price_of, pair_of};
ghost use Rattle.notice.specs.Notices.{figures, says, tells};

use super::held::Notice;
use super::tables::Tables;
use sources::figures::YearFigures;
use sources::{Current, YearEnd};

impl Tables {
    // The quota that was stated last, up to the day.
    pub(crate) fn quota_on(&self, day: u16) -> Option<u32>
        ensures { result ≡ quota_on (figures self.now).quotas day }
    {
        Some(self.quotas.last_up_to(day)?.quota)
    }

    // The price that was stated for the month.
    pub(crate) fn price_of(&self, month: u16) -> Option<u32>
        ensures { result ≡ price_of (figures self.now).prices month }
    {
        Some(self.prices.find(month)?.price)
    }

    // The figures that were stated for the year.
    pub(crate) fn closing_of(&self, year: u16) -> Option<YearFigures>
        ensures { result ≡ pair_of (figures self.now).pairs year }
    {
        Some(self.pairs.find(year)?.figures)
    }
}

impl Current for Notice {
    ghost quota = { λ n d. quota_on (tells (says n)).quotas d };

    ghost price = { λ n m. price_of (tells (says n)).prices m };

    fn quota_on(&self, day: u16) -> Option<u32> {
        self.found.as_ref().ok()?.quota_on(day)
    }

    fn price_of(&self, month: u16) -> Option<u32> {
        self.found.as_ref().ok()?.price_of(month)
    }
}

impl YearEnd for Notice {
    ghost closing = { λ n y. pair_of (tells (says n)).pairs y };

    fn closing_of(&self, year: u16) -> Option<YearFigures> {
        self.found.as_ref().ok()?.closing_of(year)
    }
}
