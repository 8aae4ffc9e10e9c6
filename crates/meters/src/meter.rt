ghost use Rattle.std.specs.Prelude.{◌≡◌, ℕ, ◌^◌, ◌<◌, None, Option};
ghost use Rattle.meters.specs.Spans.{Additive, CoveredTold, told};

// What tells the kWh of a span of days.
pub trait Meter {
    // kWh from a first day to a last one, or silence
    ghost means: { Self → ℕ → ℕ → Option ℕ };

    // First and last day stand by themselves, as in records and in the log: a span would be taken apart at each.
    fn kwh(&self, first: u16, last: u16) -> Option<u32>
        ensures { result ≡ means self.now first last };

    // A span is told just where both parts of any cut are, and is then their sum.
    ghost additive: { (m : Self) → Additive (means m) };

    // A span that ends before it begins is silent.
    ghost silent: { (m : Self) (a b : ℕ) → b < a → means m a b ≡ None };

    // What is told fits 32 bits.
    ghost small: { (m : Self) (a b : ℕ) → told (means m a b) < 2 ^ 32 };
}

// The law of spans, for all that adds up as a meter does.
pub fn span_laws()
    ensures { CoveredTold }
{}
