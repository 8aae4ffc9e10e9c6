ghost use Rattle.std.specs.Prelude.{◌≡◌, ◌-◌, ◌≤◌, replicate, if◌then◌else◌, Some, None};
ghost use Rattle.books.specs.Enrolments.{percent_of};
ghost use Rattle.books.specs.Roll.{Others, Told, enrol_outcome, enrolled, is_place, places};

use super::super::enrolment::{Enrolment, Place};
use super::{PLACES, Roll};
use amounts::Refusal;
use calendar::days::is_day;

impl Roll {
    // Nobody is enrolled.
    pub fn new() -> Roll
        ensures { places result ≡ replicate 250 None }
    {
        Roll {
            table: [None; PLACES],
        }
    }

    // Enrols a place, in place of what it was enrolled with. Four numbers, as the log has them: an enrolment is made here.
    #[tactic(auto, using(crate::proofs::Rolls::enrolling))]
    pub fn enrol(&mut self, place: Place, percent: u8, first: u16, last: u16) -> Result<(), Refusal>
        ensures outcome { (result, places self.new) ≡ enrol_outcome place (record { percent = percent; first = first; last = last }) (places self.old) }
        ensures told { Told place (record { percent = percent; first = first; last = last }) (places self.old) (places self.new) result }
        ensures others { Others place (places self.old) (places self.new) }
    {
        let index = index_of(place).ok_or(Refusal::NoPlace)?;
        if !is_day(first) || !is_day(last) || last < first {
            return Err(Refusal::BadDay);
        }
        if percent > 100 {
            return Err(Refusal::BadPercent);
        }
        self.table[index] = Some(Enrolment {
            percent,
            first,
            last,
        });
        Ok(())
    }

    // What a place is enrolled with; nothing for what is no place.
    pub fn enrolment(&self, place: Place) -> Option<Enrolment>
        ensures found { result ≡ enrolled (places self.now) place }
        ensures part { percent_of result ≤ 100 }
    {
        self.table[index_of(place)?]
    }
}

// Where a place stands in the table.
fn index_of(place: Place) -> Option<usize>
    ensures { result ≡ (if is_place place then Some (place - 1) else None) }
{
    let index = usize::from(place).checked_sub(1)?;
    (index < PLACES).then_some(index)
}
