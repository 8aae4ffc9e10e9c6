// Answers and records, appended to bytes: each as a whole, or nothing where memory runs out.
ghost use Rattle.std.specs.Prelude.{◌≡◌, is_ok};
ghost use Rattle.text.specs.Appended.{appended};
ghost use Rattle.answers.specs.Answers.{answer_text, end_text, interval_text, line_text};

use crate::answer::Answer;
use crate::shown::{Day, Month, PartFields, kind_letter, status_word};
use rules::{Interval, Line};
use std::alloc::AllocError;
use text::push_shown;

// Appends the answer to the command in a line of the log.
pub fn push_answer(out: &mut Vec<u8>, line: u64, answer: Answer) -> Result<(), AllocError>
    ensures { out.new.items ≡ appended (is_ok result) out.old.items (answer_text line answer) }
{
    push_shown(out, format_args!("{line},{answer}\n"))
}

// Appends a line of the journal.
#[tactic(auto, using(std::proofs::Common::append_assoc))]
pub fn push_line(out: &mut Vec<u8>, line: &Line) -> Result<(), AllocError>
    ensures { out.new.items ≡ appended (is_ok result) out.old.items (line_text line.now) }
{
    let Line {
        number,
        place,
        year,
        interval,
        part,
        kind,
        charged,
        value,
        takes_back,
    } = *line;
    let kind = kind_letter(kind);
    push_shown(
        out,
        format_args!(
            "{number},{place},{year},{interval},{part},{kind},{charged},{value},{takes_back}\n"
        ),
    )
}

// Appends the last line of the answers: how many slips were still out.
pub fn push_end(out: &mut Vec<u8>, count: u64) -> Result<(), AllocError>
    ensures { out.new.items ≡ appended (is_ok result) out.old.items (end_text count) }
{
    push_shown(out, format_args!("end,{count}\n"))
}

// Appends an interval of the journal.
pub fn push_interval(out: &mut Vec<u8>, interval: &Interval) -> Result<(), AllocError>
    ensures { out.new.items ≡ appended (is_ok result) out.old.items (interval_text interval.now) }
{
    let Interval {
        number,
        place,
        year,
        price,
        ..
    } = *interval;
    let first = Day(interval.first);
    let last = Day(interval.last);
    let month = Month(interval.price_month);
    let status = status_word(interval.status);
    let count = interval.parts.count;
    let parts = PartFields(interval.parts.used());
    push_shown(
        out,
        format_args!(
            "{number},{place},{year},{first},{last},{price},{month},{status},{count}{parts}\n"
        ),
    )
}
