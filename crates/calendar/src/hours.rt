ghost use Rattle.std.specs.Prelude.{◌≡◌, if◌then◌else◌, Some, None};
ghost use Rattle.calendar.specs.Days.{is_day};
ghost use Rattle.calendar.specs.Hours.{sunday, last_sunday, hours_of};

use super::day::Day;

// Is it a Sunday?
pub fn is_sunday(day: u16) -> bool
    ensures { result ≡ sunday day }
{
    day % 7 == 6
}

impl Day {
    // Is it the last Sunday of its month?
    #[tactic(auto, using(crate::proofs::Starts::months_follow))]
    fn is_last_sunday(self) -> bool
        ensures { result ≡ last_sunday self.number }
    {
        let month = self.month();
        is_sunday(self.number) && month.first_day().number + month.length() <= self.number + 7
    }

    // Its hours.
    #[tactic(auto, unfolding(crate::specs::Hours::hours_of))]
    fn hours(self) -> u8
        ensures { result ≡ hours_of self.number }
    {
        // the cheap test first: six days of seven need no month
        if !is_sunday(self.number) {
            return 24;
        }
        match self.month().in_year() {
            3 if self.is_last_sunday() => 23,
            10 if self.is_last_sunday() => 25,
            _ => 24,
        }
    }
}

// How many hours a day has: one less when summer time begins, one more when it ends.
pub fn hours_of(day: u16) -> Option<u8>
    ensures { result ≡ (if is_day day then Some (hours_of day) else None) }
{
    Some(Day::new(day)?.hours())
}
