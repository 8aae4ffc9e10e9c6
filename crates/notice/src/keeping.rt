// Tables, filled entry by entry.
ghost use Rattle.std.specs.Prelude.{◌≡◌, OnOk};
ghost use Rattle.sources.specs.Board.{nothing};
ghost use Rattle.notice.specs.Notices.{figures, last_dates, with_entry};
ghost use Rattle.notice_text.specs.Lines.{Follows};

use crate::table::Table;
use crate::tables::Tables;
use notice_text::{Dates, Entry};
use std::alloc::{AllocError, Global};

impl Tables {
    // No figures.
    pub(crate) fn new(heap: Global) -> Tables
        ensures { figures result ≡ nothing }
    {
        Tables {
            quotas: Table::new(heap),
            prices: Table::new(heap),
            pairs: Table::new(heap),
        }
    }

    // The last date of each letter.
    pub(crate) fn last_dates(&self) -> Dates
        ensures { result ≡ last_dates (figures self.now) }
    {
        Dates {
            day: self.quotas.last().map_or(0, |told| told.from),
            month: self.prices.last().map_or(0, |told| told.month),
            year: self.pairs.last().map_or(0, |told| told.year),
        }
    }

    // Keeps an entry with a later date than the last one of its letter.
    pub(crate) fn keep(&mut self, entry: Entry) -> Result<(), AllocError>
        requires { Follows (last_dates (figures self.old)) entry }
        ensures { OnOk result (figures self.new ≡ with_entry entry (figures self.old)) }
    {
        match entry {
            Entry::Quota(told) => self.quotas.push(told),
            Entry::Price(told) => self.prices.push(told),
            Entry::Final(told) => self.pairs.push(told),
        }
    }
}
