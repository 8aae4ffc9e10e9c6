use super::table::Table;
use sources::figures::{FinalPair, MonthPrice, QuotaFrom};

// The figures of a notice, each kind in the order of its dates.
#[derive(Drop)]
pub struct Tables {
    pub(crate) quotas: Table<QuotaFrom>,
    pub(crate) prices: Table<MonthPrice>,
    pub(crate) pairs: Table<FinalPair>,
}

// Where a notice is faulty: the line and its first faulty field, counted from 1. Both are 0
// where it is too long: the answer writes these two numbers, and an enum would be turned back into them.
#[derive(Clone, Copy)]
pub struct Place {
    pub line: u32,
    pub field: u32,
}
