// Figures by their dates, to be looked up by halving: each names its date in one line.
use super::figures::{FinalPair, MonthPrice, QuotaFrom};
use lookup::Keyed;

impl Keyed for QuotaFrom {
    ghost order = { λ q. q.from };

    fn key(&self) -> u64 {
        u64::from(self.from)
    }
}

impl Keyed for MonthPrice {
    ghost order = { λ p. p.month };

    fn key(&self) -> u64 {
        u64::from(self.month)
    }
}

impl Keyed for FinalPair {
    ghost order = { λ p. p.year };

    fn key(&self) -> u64 {
        u64::from(self.year)
    }
}
