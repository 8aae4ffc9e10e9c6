ghost use Rattle.std.specs.Prelude.{◌≡◌, ℕ, Option};

// A source of the figures that bills of the running year are made from. It may be silent.
pub trait Current {
    // the estimated quota of a day
    ghost quota: { Self → ℕ → Option ℕ };

    // the price of a month
    ghost price: { Self → ℕ → Option ℕ };

    // The estimated quota of the day, or silence.
    fn quota_on(&self, day: u16) -> Option<u32>
        ensures { result ≡ quota self.now day };

    // The price of the month, or silence.
    fn price_of(&self, month: u16) -> Option<u32>
        ensures { result ≡ price self.now month };
}
