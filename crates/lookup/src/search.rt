ghost use Rattle.std.specs.Prelude.{◌≡◌, ◌+◌, ◌-◌, ◌/◌, ◌<◌, ◌≤◌, length, if◌then◌else◌, Some, None, MatchOption, nat_eq, nat_le, slice_index_or};
ghost use Rattle.lookup.specs.Order.{Rising, Parted, Greatest, how_many_up_to, last_up_to, first_with};

use super::keyed::Keyed;

// That keys rise is known where the records are kept, in two kinds of storage: a type over the slice would be made anew
// for each search.

// Is the record's key up to the limit?
fn is_up_to<T: Keyed + Copy>(item: T, limit: u64) -> bool
    ensures { result ≡ nat_le (T.Keyed.order item) limit }
{
    item.key() <= limit
}

// The place halfway between two; their sum may be too large to take.
fn halfway(low: usize, high: usize) -> usize
    requires { low ≤ high }
    ensures { result ≡ (low + high) / 2 }
{
    low + (high - low) / 2
}

// How many records have a key up to the limit, where the keys rise.
// Halved by hand: a call of the library's `partition_point` leaves no middle here that an edit could turn.
pub fn count_up_to<T: Keyed + Copy>(items: &[T], limit: u64) -> usize
    ensures within { result ≤ length items.now }
    ensures counted { Rising T.Keyed.order items.now → result ≡ how_many_up_to T.Keyed.order limit items.now }
    ensures parted { Rising T.Keyed.order items.now → Parted T.Keyed.order limit items.now result }
{
    let mut low = 0;
    let mut high = items.len();
    while low < high {
        let middle = halfway(low, high);
        if is_up_to(items[middle], limit) {
            low = middle + 1;
        } else {
            high = middle;
        }
    }
    low
}

// The last of the first `count` records.
fn last_of<T: Copy>(items: &[T], count: usize) -> Option<T>
    requires { count ≤ length items.now }
    ensures { MatchOption result (count ≡ 0) (λ x. (0 < count) × (x ≡ slice_index_or items.now (count - 1) x)) }
{
    items[..count].last().copied()
}

// The record with the greatest key up to the limit, where the keys rise.
pub fn last_up_to<T: Keyed + Copy>(items: &[T], limit: u64) -> Option<T>
    ensures last { Rising T.Keyed.order items.now → result ≡ last_up_to T.Keyed.order limit items.now }
    ensures greatest { Rising T.Keyed.order items.now → Greatest T.Keyed.order limit items.now result }
{
    last_of(items, count_up_to(items, limit))
}

// The record with that key, where the keys rise.
pub fn find_key<T: Keyed + Copy>(items: &[T], key: u64) -> Option<T>
    ensures { Rising T.Keyed.order items.now → result ≡ first_with T.Keyed.order key items.now }
{
    last_up_to(items, key).filter(
        |item| -> bool
            ensures { result ≡ nat_eq (T.Keyed.order item.now) key }
        { item.key() == key },
    )
}
