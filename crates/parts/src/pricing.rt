ghost use Rattle.std.specs.Prelude.{◌≡◌};
ghost use Rattle.parts.specs.Pricing.{LatestOf24, price_month_of};

use sources::current::Current;

// A month and the price that a source of any kind told for it; a `MonthPrice` is what a board was told.
#[derive(Clone, Copy, PartialEq, Debug)]
pub struct Priced {
    pub month: u16,
    pub price: u32,
}

// How many months before the month of issue are asked for a price.
const MONTHS_BACK: u16 = 24;

// The latest priced month of the 24 before the month of issue.
#[tactic(auto, unfolding(crate::specs::Pricing::price_month_of))]
pub fn latest_price<S: Current>(source: &S, issued: u16) -> Option<Priced>
    ensures { result ≡ price_month_of (S.price source.now) issued }
{
    let first = issued.saturating_sub(MONTHS_BACK).max(1);
    for month in (first..issued).rev() {
        if let Some(price) = source.price_of(month) {
            return Some(Priced { month, price });
        }
    }
    None
}

// The price month is the latest priced one of the 24 before the month of issue, and is missing only where all of them are silent.
pub fn pricing_laws()
    ensures { LatestOf24 }
{}
