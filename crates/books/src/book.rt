mod calls;
mod sizes;
mod years;

use std::marker::Model;

// Records in a slice that the caller lends: fixed memory, so that no call can run out of it. Its first `count` elements are
// the records.
#[derive(Drop)]
pub struct Book<'a, R> {
    storage: &'a mut [R],
    count: usize,
}

impl<'a, R> Model for Book<'a, R> {
    ghost use Rattle.std.specs.Prelude.{◌≤◌, length, take};
    ghost use Rattle.books.specs.Records.{Held};

    ghost Value = { Held R };

    ghost view = { λ b. record { records = take b.count b.storage.now; room = length b.storage.now } };

    ghost invariant = { λ b. b.count ≤ length b.storage.now };
}

// The book takes no more records.
#[derive(Clone, Copy, PartialEq, Debug)]
pub struct Full;
