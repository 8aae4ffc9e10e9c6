ghost use Rattle.std.specs.Prelude.{◌≡◌};
ghost use Rattle.books.specs.Enrolments.{percent_on};

// A place of consumption: 1 to 250.
pub type Place = u16;

// The percent of a place's energy that is exempt from its first to its last day.
#[derive(Clone, Copy, PartialEq, Debug)]
pub struct Enrolment {
    pub percent: u8,
    pub first: u16,
    pub last: u16,
}

impl Enrolment {
    // The percent on a day: 0 before the first and after the last.
    pub fn percent_on(&self, day: u16) -> u8
        ensures { result ≡ percent_on self.now day }
    {
        if (self.first..=self.last).contains(&day) {
            self.percent
        } else {
            0
        }
    }
}
