ghost use Rattle.std.specs.Prelude.{◌+◌, ◌<◌, ◌≤◌};

// A meter of the days from `first` to `last` that was read twice, before the first and after the last:
// `total` is the kWh between its two indexes, spread evenly over the days.
#[derive(Clone, Copy)]
pub struct IndexMeter {
    pub(crate) first: u16,
    pub(crate) last: u16,
    pub(crate) total: u32,
    ghost forward: { first ≤ last },
    ghost short: { last < first + 366 },
    ghost small: { total ≤ 4000000 },
}
