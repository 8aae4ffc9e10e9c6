ghost use Rattle.std.specs.Prelude.{◌≡◌, ℕ};

// A record with a key, by which records are put in order.
pub trait Keyed {
    ghost order: { Self → ℕ };

    fn key(&self) -> u64
        ensures { result ≡ order self.now };
}
