ghost use Rattle.std.specs.Prelude.{◌≤◌, length};
ghost use Rattle.sources.specs.Lists.{Once};

use arrayvec::ArrayVec;
use lookup::Keyed;

// What was told of one kind, in the order in which it came: at most N items, and no two of one date.
#[derive(Drop)]
pub(crate) struct Told<T: Keyed, const N: usize> {
    pub(crate) kept: ArrayVec<T, N>,
    ghost once: { Once T.Keyed.order kept.items },
    ghost fits: { length kept.items ≤ N },
}
