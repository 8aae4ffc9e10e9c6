ghost use Rattle.std.specs.Prelude.{◌≡◌};
ghost use Rattle.sources.specs.Board.{figures};
ghost use Rattle.sources.specs.Figures.{holding, quota_on, price_of, pair_of};

use super::current::Current;
use super::figures::{QuotaFrom, YearFigures};
use super::held::Board;
use super::year_end::YearEnd;
use lookup::last_up_to;

impl Board {
    // The quota that holds on the day, with the day from which it holds.
    pub(crate) fn holding(&self, day: u16) -> Option<QuotaFrom>
        ensures { result ≡ holding (figures self.now).quotas day }
    {
        last_up_to(self.quotas.as_slice(), u64::from(day))
    }
}

impl Current for Board {
    ghost quota = { λ b d. quota_on (figures b).quotas d };

    ghost price = { λ b m. price_of (figures b).prices m };

    fn quota_on(&self, day: u16) -> Option<u32> {
        self.holding(day).map(|told| told.quota)
    }

    fn price_of(&self, month: u16) -> Option<u32> {
        self.prices.find(month).map(|told| told.price)
    }
}

impl YearEnd for Board {
    ghost closing = { λ b y. pair_of (figures b).pairs y };

    fn closing_of(&self, year: u16) -> Option<YearFigures> {
        self.pairs.find(year).map(|told| told.figures)
    }
}
