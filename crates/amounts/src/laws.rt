// Theorems on the definitions that the other contracts cite: each stands as the contract of a function.
ghost use Rattle.amounts.specs.Laws.{Laws};
ghost use Rattle.amounts.specs.Tables.{DecideFollows, SmallestFirst};

// What rounding, values, exemptions and mean prices come to.
pub fn amounts_laws()
    ensures { Laws }
{}

// Whatever a call answers, the first refusal of a table whose numbers rise has the smallest number.
pub fn tables_give_the_smallest<T: Drop>(answer: T)
    ensures { SmallestFirst answer }
{}

// Whatever a call answers, its outcome is the first refusal of its table with the state as it was, or the answer with
// the state after.
pub fn outcomes_follow_tables<A: Drop, S: Drop>(before: S, answer: A, after: S)
    ensures { DecideFollows before answer after }
{}
