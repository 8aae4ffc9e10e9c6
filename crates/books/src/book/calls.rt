ghost use Rattle.std.specs.Prelude.{◌≡◌, ◌<◌, length, is_ok, if◌then◌else◌, nat_lt, slice_set};
ghost use Rattle.std.specs.List.{slice_get};
ghost use Rattle.books.specs.Records.{entered, with_records};

use super::{Book, Full};
use std::mem;

impl<'a, R: Copy> Book<'a, R> {
    // Enters a record behind the others, if there is room.
    pub fn enter(&mut self, it: R) -> Result<(), Full>
        ensures told { is_ok result ≡ nat_lt (length self.old.records) self.old.room }
        ensures after { self.new ≡ (if is_ok result then entered it self.old else self.old) }
    {
        if self.count >= self.storage.len() {
            return Err(Full);
        }
        self.append(it);
        Ok(())
    }

    // Enters a record behind the others, where the caller knows that there is room.
    pub fn append(&mut self, it: R)
        requires { length self.old.records < self.old.room }
        ensures { self.new ≡ entered it self.old }
    {
        self.storage[self.count] = it;
        self.count += 1;
    }

    // The record at `i`, counted from 0, if there is one.
    pub fn at(&self, i: usize) -> Option<R>
        ensures { result ≡ slice_get self.now.records i }
    {
        self.as_slice().get(i).copied()
    }

    // Puts `it` in the place of the record at `i`, and returns that. Where there is none, nothing changes.
    #[tactic(auto, using(crate::proofs::Books::replacing))]
    pub fn replace(&mut self, i: usize, it: R) -> Option<R>
        ensures told { result ≡ slice_get self.old.records i }
        ensures after { self.new ≡ with_records (slice_set self.old.records i it) self.old }
    {
        if i >= self.count {
            return None;
        }
        Some(mem::replace(&mut self.storage[i], it))
    }
}
