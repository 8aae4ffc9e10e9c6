// How many quotas a board keeps.
pub const MOST_QUOTAS: usize = 16;

// How many prices a board keeps.
pub const MOST_PRICES: usize = 48;

// How many final pairs a board keeps.
pub const MOST_PAIRS: usize = 8;

// A quota that holds from a day on, until another takes its place.
#[derive(Clone, Copy, Default)]
pub struct QuotaFrom {
    pub from: u16,
    pub quota: u32,
}

// The price of a month.
#[derive(Clone, Copy, Default)]
pub struct MonthPrice {
    pub month: u16,
    pub price: u32,
}

// The final figures of a year: its quota, and the market price of a certificate.
#[derive(Clone, Copy, Default)]
pub struct YearFigures {
    pub quota: u32,
    pub price: u32,
}

// The final figures, and the year that they are of.
#[derive(Clone, Copy, Default)]
pub struct FinalPair {
    pub year: u16,
    pub figures: YearFigures,
}
