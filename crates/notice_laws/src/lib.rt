// What notices come to, in whole.
#![tactic(auto)]

ghost use Rattle.notice_laws.specs.Laws.{NoticeLaws};

// States what holds of every notice; it does nothing.
pub fn notice_laws()
    ensures { NoticeLaws }
{}
