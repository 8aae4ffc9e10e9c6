ghost use Rattle.std.specs.Prelude.{◌≡◌, ◌<◌, [], ◌∷◌, ◌++◌, None, length, nat_le};
ghost use Rattle.lookup.specs.Order.{first_with};
ghost use Rattle.sources.specs.Lists.{from_on};

use super::told::Told;
use arrayvec::ArrayVec;
use lookup::Keyed;

// The first item of the date, if there is one.
fn first_of<T: Keyed + Copy>(items: &[T], date: u16) -> Option<T>
    ensures { result ≡ first_with T.Keyed.order date items.now }
{
    items.iter().find(|it| it.key() == u64::from(date)).copied()
}

impl<T: Keyed + Copy + Default, const N: usize> Told<T, N> {
    // Nothing yet.
    pub(crate) fn new() -> Told<T, N>
        ensures { result.kept.items ≡ [] }
    {
        Told {
            kept: ArrayVec::new(),
        }
    }

    pub(crate) fn is_full(&self) -> bool
        ensures { result ≡ nat_le N (length self.now.kept.items) }
    {
        self.kept.is_full()
    }

    pub(crate) fn as_slice(&self) -> &[T]
        ensures { result.now ≡ self.now.kept.items }
    {
        self.kept.as_slice()
    }

    // The item of the date, if there is one.
    pub(crate) fn find(&self, date: u16) -> Option<T>
        ensures { result ≡ first_with T.Keyed.order date self.now.kept.items }
    {
        first_of(self.kept.as_slice(), date)
    }

    // Keeps one item more, of a date that has none, after the others.
    #[tactic(auto, using(crate::proofs::Items::once_push))]
    pub(crate) fn push(&mut self, it: T)
        requires room { length self.old.kept.items < N }
        requires new_date { first_with T.Keyed.order (T.Keyed.order it) self.old.kept.items ≡ None }
        ensures { self.new.kept.items ≡ self.old.kept.items ++ it ∷ [] }
    {
        self.kept.push(it);
    }

    // Keeps the items of this date or a later one, in their order.
    pub(crate) fn keep_from(&mut self, least: u16)
        ensures { self.new.kept.items ≡ from_on T.Keyed.order least self.old.kept.items }
    {
        self.kept.retain(|it| it.key() >= u64::from(least));
    }
}
