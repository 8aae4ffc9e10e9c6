ghost use Rattle.sources.specs.Figures.{DaysRise};

use super::figures::{FinalPair, MOST_PAIRS, MOST_PRICES, MOST_QUOTAS, MonthPrice, QuotaFrom};
use super::told::Told;

// The figures that were told, one at a time: quotas from later and later days, one price for a month, and one final
// pair for a year.
#[derive(Drop)]
pub struct Board {
    pub(crate) quotas: Told<QuotaFrom, MOST_QUOTAS>,
    pub(crate) prices: Told<MonthPrice, MOST_PRICES>,
    pub(crate) pairs: Told<FinalPair, MOST_PAIRS>,
    ghost rising: { DaysRise quotas.kept.items },
}
