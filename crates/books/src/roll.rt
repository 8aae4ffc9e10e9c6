mod calls;

ghost use Rattle.std.specs.Prelude.{◌≡◌, ℕ, ◌≤◌, length, None, slice_index_or};
ghost use Rattle.books.specs.Enrolments.{percent_of};

use super::enrolment::Enrolment;

// How many places there are.
const PLACES: usize = 250;

// What each place is enrolled with, place 1 first. A table of fixed size: no heap.
#[derive(Drop)]
pub struct Roll {
    table: [Option<Enrolment>; PLACES],
    ghost size: { length table ≡ 250 },
    ghost part: { (k : ℕ) → percent_of (slice_index_or table k None) ≤ 100 },
}
