ghost use Rattle.sources.specs.Laws.{BoardLaws, TellingLaws, ForgettingLaws};

// States what holds of every board, of every telling and of all forgetting; it does nothing.
pub fn board_laws()
    ensures says { BoardLaws }
    ensures told { TellingLaws }
    ensures forgotten { ForgettingLaws }
{}
