// Replays a log of commands: reads it whole, and writes the answer to each.
#![tactic(auto)]

ghost use Rattle.std.specs.Prelude.{◌≡◌, ◌<◌, ◌≤◌, ◌++◌, [], length, IfOk, IfSome, OnOk, OnSome};
ghost use Rattle.std.specs.Io.KnownBytes.{Appends, IsAtEnd};
ghost use Rattle.text.specs.Taken.{text_left};
ghost use Rattle.commands.specs.Commands.{usual};
ghost use Rattle.answers.specs.Answers.{end_text};
ghost use Rattle.office.specs.Desk.{desk};
ghost use Rattle.replay.specs.Replaying.{Leaves, Owes, all_answers, begun, by_command, by_entry, desk_after, place, replayed, to_write};

use answers::{Answer, push_answer, push_end};
use commands::{Beginning, Command, Vocabulary, usual_beginning};
use desk::{respond, respond_to_notice};
use journal::Journal;
use logs::{Entry, Log};
use office::OfficeOf;
use rules::{NO_INTERVAL, NO_LINE};
use std::alloc::{AllocError, Global};
use std::io;
use std::io::{Read, Write};

// Answers are written once so many bytes of them have gathered.
const BLOCK: usize = 65_536;

// Writes the answers that have gathered.
fn flush<W: Write>(to: &mut W, out: &mut Vec<u8>) -> io::Result<()>
    ensures written { OnOk result (Appends (W.contents to.old) (W.contents to.new) out.old.items) }
    ensures empty { OnOk result (out.new.items ≡ []) }
{
    to.write_all(out.as_slice())?;
    out.clear();
    Ok(())
}

// Writes the answers that have gathered, where they are more than a block. Without an error none is lost, or written
// twice, and at most a block is left.
#[tactic(auto, using(crate::proofs::Replays::owes_all, crate::proofs::Replays::owes_flushed))]
fn flush_block<W: Write>(to: &mut W, out: &mut Vec<u8>) -> io::Result<()>
    ensures owed { OnOk result (Owes (W.contents to.old) (W.contents to.new) out.new.items out.old.items) }
    ensures few { OnOk result (length out.new.items ≤ 65536) }
{
    if out.len() > BLOCK {
        flush(to, out)?;
    }
    Ok(())
}

// Answers the command in the line that was taken last. A setup is handed on, to whoever holds the storage.
fn answer_command<const IDS: usize>(
    heap: Global,
    log: &mut Log<'_>,
    office: &mut OfficeOf<'_, IDS>,
    out: &mut Vec<u8>,
    command: Command,
) -> Result<Option<Beginning>, AllocError>
    ensures told { IfOk result (λ next. Leaves (by_command IDS command (place log.old (desk office.old))) out.old.items out.new.items (place log.new (desk_after IDS next (desk office.new)))) }
    ensures same { log.new.vocabulary ≡ log.old.vocabulary }
{
    match command {
        Command::Setup(next) => {
            push_answer(out, log.line, Answer::Taken)?;
            Ok(Some(next))
        }
        Command::Notice { lines } => {
            let line = log.line;
            let text = log.take_lines(lines);
            respond_to_notice(out, office, heap, line, text)?;
            Ok(None)
        }
        other => {
            respond(out, office, log.line, other)?;
            Ok(None)
        }
    }
}

// Answers the line that was taken last.
fn answer_entry<const IDS: usize>(
    heap: Global,
    log: &mut Log<'_>,
    office: &mut OfficeOf<'_, IDS>,
    out: &mut Vec<u8>,
    entry: Entry,
) -> Result<Option<Beginning>, AllocError>
    ensures told { IfOk result (λ next. Leaves (by_entry IDS entry (place log.old (desk office.old))) out.old.items out.new.items (place log.new (desk_after IDS next (desk office.new)))) }
    ensures same { log.new.vocabulary ≡ log.old.vocabulary }
{
    match entry {
        Entry::PassedOver => Ok(None),
        Entry::Unreadable => {
            push_answer(out, log.line, Answer::Bad)?;
            Ok(None)
        }
        Entry::Read(command) => answer_command(heap, log, office, out, command),
    }
}

// Answers line after line by one office, until the log ends or a setup asks for other books. All is written then.
fn answer_lines<W: Write, const IDS: usize>(
    heap: Global,
    to: &mut W,
    log: &mut Log<'_>,
    office: &mut OfficeOf<'_, IDS>,
    out: &mut Vec<u8>,
) -> io::Result<Option<Beginning>>
    ensures written { IfOk result (λ next. Owes (W.contents to.old) (W.contents to.new) (to_write IDS next log.new) (out.old.items ++ all_answers IDS log.old.vocabulary (place log.old (desk office.old)))) }
    ensures same { log.new.vocabulary ≡ log.old.vocabulary }
    ensures shorter { IfOk result (λ next. OnSome next (length (text_left log.new.lines) < length (text_left log.old.lines))) }
{
    // no `for`: a notice takes lines of the log within the loop
    while let Some(entry) = log.next_entry() {
        if let Some(next) = answer_entry(heap, log, office, out, entry)? {
            flush(to, out)?;
            return Ok(Some(next));
        }
        flush_block(to, out)?;
    }
    flush(to, out)?;
    Ok(None)
}

// Keeps one set of books until the log ends or asks for another.
fn keep_books<W: Write, const IDS: usize>(
    heap: Global,
    to: &mut W,
    log: &mut Log<'_>,
    begin: Beginning,
) -> io::Result<Option<Beginning>>
    requires { IDS ≤ 16 }
    ensures written { IfOk result (λ next. Owes (W.contents to.old) (W.contents to.new) (to_write IDS next log.new) (all_answers IDS log.old.vocabulary (place log.old (begun IDS begin)))) }
    ensures same { log.new.vocabulary ≡ log.old.vocabulary }
    ensures shorter { IfOk result (λ next. OnSome next (length (text_left log.new.lines) < length (text_left log.old.lines))) }
{
    let mut intervals = vec![in heap; NO_INTERVAL; begin.intervals as usize]?;
    let mut lines = vec![in heap; NO_LINE; begin.lines as usize]?;
    let journal = Journal::setup(
        intervals.as_mut_slice(),
        lines.as_mut_slice(),
        begin.year,
        begin.line,
    );
    let mut office: OfficeOf<'_, IDS> = OfficeOf::new(journal);
    let mut out = Vec::new(heap);
    answer_lines(heap, to, log, &mut office, &mut out)
}

// Answers a log from the usual books on, by offices with registers for so many IDs.
fn answer_log<W: Write, const IDS: usize>(
    heap: Global,
    to: &mut W,
    mut log: Log<'_>,
) -> io::Result<()>
    requires { IDS ≤ 16 }
    ensures { OnOk result (Appends (W.contents to.old) (W.contents to.new) (all_answers IDS log.entry.vocabulary (place log.entry (begun IDS usual)) ++ end_text 0)) }
{
    let mut begin = usual_beginning();
    while let Some(next) = keep_books::<W, IDS>(heap, to, &mut log, begin)? {
        begin = next;
    }
    let mut out = Vec::new(heap);
    push_end(&mut out, 0)?;
    flush(to, &mut out)
}

// Answers a whole log by the commands of a vocabulary. Where billing is all, no office needs a register.
pub fn replay<R: Read, W: Write>(
    heap: Global,
    from: &mut R,
    to: &mut W,
    vocabulary: Vocabulary,
) -> io::Result<()>
    ensures read { OnOk result (IsAtEnd (R.remaining from.new)) }
    ensures written { OnOk result (IfSome (R.remaining from.old) (λ log. Appends (W.contents to.old) (W.contents to.new) (replayed vocabulary log))) }
{
    let mut input = Vec::new(heap);
    from.read_to_end(&mut input)?;
    let log = Log::of(vocabulary, input.as_slice());
    match vocabulary {
        Vocabulary::Billing => answer_log::<W, 0>(heap, to, log),
        Vocabulary::Whole => answer_log::<W, 16>(heap, to, log),
    }
}

#[cfg(test)]
mod tests;
