ghost use Rattle.std.specs.Prelude.{◌≡◌, length, IfOk, OnErr, OnOk};
ghost use Rattle.office.specs.Desk.{after_notice, by_source, desk, issue_by, issue_with, notice_answer, obeyed};

use super::office::OfficeOf;
use answers::Answer;
use commands::{Command, MeterField};
use meters::IndexMeter;
use meters::meter::Meter;
use notice::Notice;
use rules::Supply;
use std::alloc::{AllocError, Global};

impl<'a, const IDS: usize> OfficeOf<'a, IDS> {
    // Bills a supply by a meter, and by the source that is in force: two arms, since an issue is generic over its source.
    fn issue_by<M: Meter>(&mut self, meter: &M, supply: Supply) -> Answer
        ensures { (result, desk self.new) ≡ issue_by (M.means meter.now) supply (desk self.old) }
    {
        Answer::from(match &self.notice {
            None => self.journal.issue(&self.roll, &self.board, meter, supply),
            Some(notice) => self.journal.issue(&self.roll, notice, meter, supply),
        })
    }

    // Bills a supply by the meter that a line names. Where it is refused, that is the answer: no Result, so by a match.
    fn issue_with(&mut self, meter: MeterField, supply: Supply) -> Answer
        ensures { (result, desk self.new) ≡ issue_with meter supply (desk self.old) }
    {
        match meter {
            MeterField::Index(reading) => {
                match IndexMeter::new(reading.first, reading.last, reading.before, reading.after) {
                    Err(refusal) => Answer::Refused(refusal),
                    Ok(meter) => self.issue_by(&meter, supply),
                }
            }
            MeterField::Register(id) => match self.registers.kept(id) {
                None => Answer::Bad,
                Some(register) => self.issue_by(&register, supply),
            },
        }
    }

    // Carries a command out and says what it is answered. A setup is for whoever holds the storage and a notice for
    // whoever holds its text: they change nothing here. Commands are a closed list: a match is plainer than closures.
    // Whoever lends the office sees no list of registers: `ids` says which IDs may have one.
    pub fn obey(&mut self, command: Command) -> Answer
        ensures answers { (result, desk self.new) ≡ obeyed command (desk self.old) }
        ensures ids { length (desk self.old).registers ≡ IDS }
    {
        match command {
            Command::Setup(_) => Answer::Taken,
            Command::Enrol {
                place,
                percent,
                first,
                last,
            } => Answer::from(self.roll.enrol(place, percent, first, last)),
            Command::Quota { day, quota } => Answer::from(self.board.tell_quota(day, quota)),
            Command::Price { month, price } => Answer::from(self.board.tell_price(month, price)),
            Command::Final { year, quota, price } => Answer::from(
                self.board.tell_final(year, quota, price),
            ),
            Command::Forget { year } => Answer::from(self.board.forget(year)),
            Command::Board => {
                self.notice = None;
                Answer::Taken
            }
            Command::Notice { .. } => Answer::Taken,
            Command::Register { id, year } => self.registers.begin(id, year),
            Command::Hour { id, day, hour, kwh } => self.registers.read_hour(id, day, hour, kwh),
            Command::Issue {
                place,
                first,
                last,
                issued,
                meter,
            } => {
                let supply = Supply {
                    place,
                    first,
                    last,
                    issued,
                };
                self.issue_with(meter, supply)
            }
            Command::Balance { place, year } => Answer::Amount(self.journal.balance(place, year)),
            Command::Lines => Answer::Number(self.journal.line_count() as u64),
            Command::Intervals => Answer::Number(self.journal.interval_count() as u64),
        }
    }

    // Reads a notice, which is the source from here on, faulty or not. The answer is its check's. Without the memory for
    // it the office stays.
    pub fn take_notice(&mut self, heap: Global, text: &[u8]) -> Result<Answer, AllocError>
        ensures answer { IfOk result (λ answer. answer ≡ notice_answer text.now) }
        ensures after { OnOk result (desk self.new ≡ after_notice text.now (desk self.old)) }
        ensures unread { OnErr result (desk self.new ≡ desk self.old) }
        ensures rest { by_source None (desk self.new) ≡ by_source None (desk self.old) }
    {
        let notice = Notice::read(heap, text)?;
        let answer = Answer::from(notice.check());
        self.notice = Some(notice);
        Ok(answer)
    }
}
