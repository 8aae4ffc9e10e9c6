// Worked examples of the rules, proved from the definitions that the contracts cite.
#![tactic(auto)]

ghost use Rattle.examples.specs.Examples.{Examples};

#[tactic(auto, unfolding(amounts::specs::Amounts::rounded, amounts::specs::Amounts::value, amounts::specs::Amounts::exempt, amounts::specs::Amounts::charged))]
pub fn worked_examples()
    ensures { Examples }
{}
