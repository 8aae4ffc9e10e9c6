ghost use Rattle.meters.specs.Laws.{RegisterLaws};

// What holds of every register.
pub fn register_laws()
    ensures { RegisterLaws }
{}
