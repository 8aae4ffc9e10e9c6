// Records in the order of their keys.
ghost use Rattle.std.specs.Prelude.{◌≡◌, ◌<◌, [], ◌∷◌, ◌++◌, OnOk};
ghost use Rattle.std.specs.Option.{ForSome};
ghost use Rattle.lookup.specs.Order.{Rising, first_with, last_up_to};

use lookup::{Keyed, find_key, last_up_to};
use std::alloc::{AllocError, Global};

// Records, each with a greater key than those before it, to be looked up by halving. A sorted Vec and no map: dates come
// in order, and the search is the one that a board has, which uses no heap.
#[derive(Drop)]
pub struct Table<T: Keyed + Copy> {
    records: Vec<T>,
    ghost rising: { Rising T.Keyed.order records.items },
}

impl<T: Keyed + Copy> Table<T> {
    ghost use Rattle.notice.specs.Tabled.{last_of, records_of};

    // No records.
    pub(crate) fn new(heap: Global) -> Table<T>
        ensures { records_of result ≡ [] }
    {
        Table {
            records: Vec::new(heap),
        }
    }

    // The last record.
    pub(crate) fn last(&self) -> Option<T>
        ensures { result ≡ last_of (records_of self.now) }
    {
        self.records.last().copied()
    }

    // One record more, with a greater key than the last.
    pub(crate) fn push(&mut self, item: T) -> Result<(), AllocError>
        requires { ForSome (last_of (records_of self.old)) (λ last. T.Keyed.order last < T.Keyed.order item) }
        ensures { OnOk result (records_of self.new ≡ records_of self.old ++ item ∷ []) }
    {
        self.records.push(item)?;
        Ok(())
    }

    // The record with the greatest key up to the limit.
    pub(crate) fn last_up_to(&self, limit: u16) -> Option<T>
        ensures { result ≡ last_up_to T.Keyed.order limit (records_of self.now) }
    {
        last_up_to(self.records.as_slice(), u64::from(limit))
    }

    // The record with that key.
    pub(crate) fn find(&self, key: u16) -> Option<T>
        ensures { result ≡ first_with T.Keyed.order key (records_of self.now) }
    {
        find_key(self.records.as_slice(), u64::from(key))
    }
}
