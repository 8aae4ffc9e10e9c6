ghost use Rattle.std.specs.Prelude.{◌≡◌, ℕ, Option};
ghost use Rattle.sources.specs.declared.figures.YearFigures.{YearFigures};

use super::current::Current;
use super::figures::YearFigures;

// A source that also tells what a year is settled by. It may be silent.
pub trait YearEnd: Current {
    // the final quota and the market price of a year
    ghost closing: { Self → ℕ → Option YearFigures };

    // The final quota and the market price of the year, or silence.
    fn closing_of(&self, year: u16) -> Option<YearFigures>
        ensures { result ≡ closing self.now year };
}
