ghost use Rattle.rules.specs.Laws.{IssueLaws, TakenLaws};

// The numbers of an issue's table rise; its parts are those of its days, and add up to what the meter meant.
pub fn issue_laws()
    ensures { IssueLaws }
{}

// No silence passes for a quota of 0; an issue that is taken writes a line for each of one to four parts, keeps the year's
// kWh within bounds, and adds its worth to one balance; a day is shared exactly where some day lies in both.
pub fn taken_laws()
    ensures { TakenLaws }
{}
