ghost use Rattle.std.specs.Prelude.{◌≡◌, ◌+◌, ◌≤◌, length, take, drop, filter, position};
ghost use Rattle.std.specs.Option.{option_map};
ghost use Rattle.books.specs.Records.{is_of, not_of, with_records};

use super::super::dated::Dated;
use super::Book;

impl<'a, R: Dated> Book<'a, R> {
    // The first record of the year at or after `from`.
    pub fn find(&self, year: u16, from: usize) -> Option<usize>
        ensures { result ≡ option_map (λ i. from + i) (position (is_of R.dates year) (drop from self.now.records)) }
    {
        let rest = self.as_slice().get(from..)?;
        Some(from + first_of(rest, year)?)
    }

    // Removes the year's records, and keeps the others in their order.
    pub fn strike(&mut self, year: u16)
        ensures { self.new ≡ with_records (filter (not_of R.dates year) self.old.records) self.old }
    {
        self.count = gather(&mut self.storage[..self.count], year);
    }
}

// Where the first record of the year stands.
fn first_of<R: Dated>(records: &[R], year: u16) -> Option<usize>
    ensures { result ≡ position (is_of R.dates year) records.now }
{
    records.iter().position(|it| it.year() == year)
}

// Moves the records of other years to the front, and returns how many they are.
fn gather<R: Dated>(records: &mut [R], year: u16) -> usize
    ensures front { take result records.new ≡ filter (not_of R.dates year) records.old }
    ensures bound { result ≤ length records.old }
{
    let mut end = 0;
    // By index: it writes to the slice that it reads.
    for i in 0..records.len() {
        let it = records[i];
        if it.year() != year {
            records[end] = it;
            end += 1;
        }
    }
    end
}
