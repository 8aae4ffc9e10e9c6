ghost use Rattle.std.specs.Prelude.{◌≡◌, length, OnOk};
ghost use Rattle.answers.specs.Answers.{answer_text};
ghost use Rattle.answers.specs.Rows.{Writes};
ghost use Rattle.office.specs.Desk.{after_notice, by_source, desk, notice_answer, obeyed};
ghost use Rattle.desk.specs.Desk.{records_text, response};

use super::rows::push_rows;
use answers::push_answer;
use commands::Command;
use office::OfficeOf;
use std::alloc::{AllocError, Global};

// Appends the records that follow the answer to some commands.
fn push_records<const IDS: usize>(
    out: &mut Vec<u8>,
    office: &OfficeOf<'_, IDS>,
    command: Command,
) -> Result<(), AllocError>
    ensures { Writes result out.old.items out.new.items (records_text command (desk office.now).books) }
{
    match command {
        Command::Lines => push_rows(out, office.journal().lines()),
        Command::Intervals => push_rows(out, office.journal().intervals()),
        _ => Ok(()),
    }
}

// Reads a notice, which is the source from here on, and appends the answer to its line. Without the memory for both
// all but the source stays.
pub fn respond_to_notice<const IDS: usize>(
    out: &mut Vec<u8>,
    office: &mut OfficeOf<'_, IDS>,
    heap: Global,
    line: u64,
    text: &[u8],
) -> Result<(), AllocError>
    ensures text { Writes result out.old.items out.new.items (answer_text line (notice_answer text.now)) }
    ensures after { OnOk result (desk office.new ≡ after_notice text.now (desk office.old)) }
    ensures rest { by_source None (desk office.new) ≡ by_source None (desk office.old) }
{
    let answer = office.take_notice(heap, text)?;
    push_answer(out, line, answer)
}

// Carries a command out and appends its answer.
#[tactic(auto, using(answers::proofs::Appending::written_on))]
pub fn respond<const IDS: usize>(
    out: &mut Vec<u8>,
    office: &mut OfficeOf<'_, IDS>,
    line: u64,
    command: Command,
) -> Result<(), AllocError>
    ensures text { Writes result out.old.items out.new.items (response line command (obeyed command (desk office.old))) }
    ensures after { desk office.new ≡ (obeyed command (desk office.old)).1 }
    ensures ids { length (desk office.old).registers ≡ IDS }
{
    let answer = office.obey(command);
    push_answer(out, line, answer)?;
    push_records(out, office, command)
}
