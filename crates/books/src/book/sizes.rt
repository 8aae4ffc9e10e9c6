ghost use Rattle.std.specs.Prelude.{◌≡◌, ◌+◌, ◌≤◌, min, [], length, ◌==◌};

use super::Book;

impl<'a, R: Copy> Book<'a, R> {
    // An empty book, whatever the storage held. It takes as many records as the storage has elements, and no more than `limit`.
    pub fn new(storage: &'a mut [R], limit: usize) -> Book<'a, R>
        ensures { result ≡ record { records = []; room = min (length storage.old) limit } }
    {
        let room = storage.len().min(limit);
        Book {
            storage: &mut storage[..room],
            count: 0,
        }
    }

    // The records, in the order in which they were entered.
    pub fn as_slice(&self) -> &[R]
        ensures records { result.now ≡ self.now.records }
        ensures fits { length result.now ≤ self.now.room }
    {
        &self.storage[..self.count]
    }

    // How many records it has.
    pub fn len(&self) -> usize
        ensures { result ≡ length self.now.records }
    {
        self.count
    }

    // How many records it can hold.
    pub fn room(&self) -> usize
        ensures { result ≡ self.now.room }
    {
        self.storage.len()
    }

    // How many records more it takes.
    pub fn free(&self) -> usize
        ensures { result + length self.now.records ≡ self.now.room }
    {
        self.room() - self.count
    }

    // Does it take no more?
    pub fn is_full(&self) -> bool
        ensures { result ≡ (length self.now.records == self.now.room) }
    {
        self.len() == self.room()
    }
}
