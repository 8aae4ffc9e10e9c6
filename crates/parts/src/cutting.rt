ghost use Rattle.std.specs.Prelude.{◌≡◌, ℕ, ◌+◌, ◌<◌, ◌≤◌, List, [], length};
ghost use Rattle.books.specs.Enrolments.{percent_on};
ghost use Rattle.parts.specs.Cutting.{CutParts, CutTells, alike, cut, day_part, extend, fitted, longer, packed, silent_within};

use super::types::{Part, Parts};
use books::Enrolment;
use sources::current::Current;

// An unused entry.
pub const BLANK: Part = Part {
    first: 0,
    last: 0,
    quota: 0,
    percent: 0,
    kwh: 0,
    charged: 0,
};

pub const NO_PARTS: Parts = Parts {
    count: 0,
    list: [BLANK; 4],
};

impl Part {
    // The part goes on to the last day of another.
    fn until(self, other: Part) -> Part
        ensures { result ≡ longer self other }
    {
        Part {
            last: other.last,
            ..self
        }
    }
}

impl Parts {
    // No parts yet.
    pub fn none() -> Parts
        ensures { result ≡ packed [] }
    {
        NO_PARTS
    }

    // The parts with one day more behind them, or nothing where that makes a fifth.
    fn extended(self, day: Part) -> Option<Parts>
        requires { self.count ≤ 4 }
        ensures { (ps : List Part) → self ≡ packed ps → length ps ≤ 4 → result ≡ fitted (extend ps day) }
    {
        let mut list = self.list;
        let count = usize::from(self.count);
        if count > 0 && continues(list[count - 1], day) {
            list[count - 1] = list[count - 1].until(day);
            return Some(Parts {
                count: self.count,
                list,
            });
        }
        if count == 4 {
            return None;
        }
        list[count] = day;
        Some(Parts {
            count: self.count + 1,
            list,
        })
    }
}

// The day has the quota and the percent of the part before it.
fn continues(part: Part, day: Part) -> bool
    ensures { result ≡ alike part day }
{
    part.quota == day.quota && part.percent == day.percent
}

// By first day and count, as the definition of a cut goes: from first to last it would be another.

// The source is silent for one of `count` days from `first` on.
pub fn is_silent_within<S: Current>(source: &S, first: u16, count: u16) -> bool
    requires { first + count ≤ 65535 }
    ensures { result ≡ silent_within (S.quota source.now) first count }
{
    (first..first + count).any(|day| source.quota_on(day).is_none())
}

// One day as a part of its own. A silent day's quota counts as 0, which never shows: an issue is refused before.
fn day_alone<S: Current>(source: &S, enrolment: Enrolment, day: u16) -> Part
    ensures { result ≡ day_part (S.quota source.now) (percent_on enrolment) day }
{
    Part {
        first: day,
        last: day,
        quota: source.quota_on(day).unwrap_or(0),
        percent: enrolment.percent_on(day),
        kwh: 0,
        charged: 0,
    }
}

// The parts of `count` days from `first` on, or nothing where they are more than four.
pub fn cut_days<S: Current>(
    source: &S,
    enrolment: Enrolment,
    first: u16,
    count: u16,
) -> Option<Parts>
    requires { first + count ≤ 65535 }
    ensures { result ≡ fitted (cut (S.quota source.now) (percent_on enrolment) first count) }
{
    let mut parts = Parts::none();
    for day in first..first + count {
        parts = parts.extended(day_alone(source, enrolment, day))?;
    }
    Some(parts)
}

// The parts of any days cover them in order, are constant in quota and percent, and neighbours differ.
pub fn cutting_laws()
    ensures { CutParts }
{}

// Where the source is silent for none of the days, it tells the quota of each part on each of its days.
pub fn telling_laws()
    ensures { CutTells }
{}
