ghost use Rattle.calendar.specs.Laws.{Begins, YearsFollow, Ends, JanuaryBeginsYear, MonthsFollow};
ghost use Rattle.calendar.specs.Laws.{DaysLieInYears, DaysLieInMonths, MonthsLieInYears, YearsRise, WorkedDays};
ghost use Rattle.calendar.specs.Laws.{WorkedHours, DatesReturn, MonthsReturn, YearsReturn, ReadsDays, ReadsMonths, ReadsYears};
ghost use Rattle.calendar.specs.Laws.{OneTextADay, OneTextAMonth, OneTextAYear};

// The laws of the calendar, proved.
#[tactic(auto, using(crate::proofs::Starts::calendar_steps, std::proofs::lemmas::Bool::Decides::nat_tests), unfolding(crate::specs::Days::year_length))]
pub fn calendar_laws()
    ensures begins { Begins }
    ensures years { YearsFollow }
    ensures ends { Ends }
    ensures january { JanuaryBeginsYear }
    ensures months { MonthsFollow }
    ensures year { DaysLieInYears }
    ensures month { DaysLieInMonths }
    ensures month_year { MonthsLieInYears }
    ensures rise { YearsRise }
    ensures worked { WorkedDays }
    ensures hours { WorkedHours }
{}

// The laws of dates as text, proved.
#[tactic(auto, using(crate::proofs::Reading::date_steps))]
pub fn date_laws()
    ensures days { DatesReturn }
    ensures months { MonthsReturn }
    ensures years { YearsReturn }
    ensures days_read { ReadsDays }
    ensures months_read { ReadsMonths }
    ensures years_read { ReadsYears }
    ensures day_text { OneTextADay }
    ensures month_text { OneTextAMonth }
    ensures year_text { OneTextAYear }
{}
