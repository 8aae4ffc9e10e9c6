use sources::figures::{FinalPair, MonthPrice, QuotaFrom};

// What one line of a notice states.
#[derive(Clone, Copy)]
pub enum Entry {
    Quota(QuotaFrom),
    Price(MonthPrice),
    Final(FinalPair),
}

// Why a line is refused: the number of its first faulty field, counted from 1. A count, and no code for a kind of fault:
// the answer names the field by it.
pub type FaultyField = u32;

// The last day, month and year that a notice has stated so far. Before there is one it is 0, which every date is later than.
#[derive(Clone, Copy)]
pub struct Dates {
    pub day: u16,
    pub month: u16,
    pub year: u16,
}
