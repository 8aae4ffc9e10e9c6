// Lines of the log, read as commands.
ghost use Rattle.std.specs.Prelude.{◌≡◌};
ghost use Rattle.text.specs.Numbers.{and_then};
ghost use Rattle.text.specs.Taken.{left};
ghost use Rattle.commands.specs.Commands.{command, read_as, passed_over, named, meter, meters, by_index, by_register};
ghost use Rattle.commands.specs.Commands.{usual, setup, enrol, quota, price, final, forget, notice, register, hour, issue, balance};

use crate::command::{Beginning, Command, IndexReading, MeterField};
use crate::fields::{next_at_most, next_day, next_id, next_month, next_u8, next_u16};
use crate::keyword::{Keyword, read_keyword};
use text::{Fields, is_word};

// The most records of each kind that storage is used for: as the journal's, of which commands know nothing.
const MOST_INTERVALS: u32 = 16_384;

const MOST_LINES: u32 = 65_536;

const MOST_LOTS: u32 = 4_096;

// Each reader ends its line itself: to end it once for all, each would have to say in a clause what it leaves.

fn read_setup(mut fields: Fields<'_>) -> Option<Command>
    ensures { result ≡ setup (left fields.entry) }
{
    let begin = Beginning {
        year: next_u16(&mut fields)?,
        line: fields.next_number()?,
        intervals: next_at_most(&mut fields, MOST_INTERVALS)?,
        lines: next_at_most(&mut fields, MOST_LINES)?,
        lots: next_at_most(&mut fields, MOST_LOTS)?,
    };
    fields.at_end().then_some(Command::Setup(begin))
}

fn read_enrol(mut fields: Fields<'_>) -> Option<Command>
    ensures { result ≡ enrol (left fields.entry) }
{
    let command = Command::Enrol {
        place: next_u16(&mut fields)?,
        percent: next_u8(&mut fields)?,
        first: next_day(&mut fields)?,
        last: next_day(&mut fields)?,
    };
    fields.at_end().then_some(command)
}

fn read_quota(mut fields: Fields<'_>) -> Option<Command>
    ensures { result ≡ quota (left fields.entry) }
{
    let command = Command::Quota {
        day: next_day(&mut fields)?,
        quota: fields.next_number()?,
    };
    fields.at_end().then_some(command)
}

fn read_price(mut fields: Fields<'_>) -> Option<Command>
    ensures { result ≡ price (left fields.entry) }
{
    let command = Command::Price {
        month: next_month(&mut fields)?,
        price: fields.next_number()?,
    };
    fields.at_end().then_some(command)
}

fn read_final(mut fields: Fields<'_>) -> Option<Command>
    ensures { result ≡ final (left fields.entry) }
{
    let year = next_u16(&mut fields)?;
    let quota = fields.next_number()?;
    let price = fields.next_number()?;
    fields
        .at_end()
        .then_some(Command::Final { year, quota, price })
}

fn read_forget(mut fields: Fields<'_>) -> Option<Command>
    ensures { result ≡ forget (left fields.entry) }
{
    let command = Command::Forget {
        year: next_u16(&mut fields)?,
    };
    fields.at_end().then_some(command)
}

fn read_notice(mut fields: Fields<'_>) -> Option<Command>
    ensures { result ≡ notice (left fields.entry) }
{
    let command = Command::Notice {
        lines: fields.next_number()?,
    };
    fields.at_end().then_some(command)
}

fn read_register(mut fields: Fields<'_>) -> Option<Command>
    ensures { result ≡ register (left fields.entry) }
{
    let command = Command::Register {
        id: next_id(&mut fields)?,
        year: next_u16(&mut fields)?,
    };
    fields.at_end().then_some(command)
}

fn read_hour(mut fields: Fields<'_>) -> Option<Command>
    ensures { result ≡ hour (left fields.entry) }
{
    let command = Command::Hour {
        id: next_id(&mut fields)?,
        day: next_day(&mut fields)?,
        hour: next_u8(&mut fields)?,
        kwh: fields.next_number()?,
    };
    fields.at_end().then_some(command)
}

fn read_index(mut fields: Fields<'_>) -> Option<MeterField>
    ensures { result ≡ by_index (left fields.entry) }
{
    let reading = IndexReading {
        first: next_day(&mut fields)?,
        last: next_day(&mut fields)?,
        before: fields.next_number()?,
        after: fields.next_number()?,
    };
    fields.at_end().then_some(MeterField::Index(reading))
}

fn read_register_id(mut fields: Fields<'_>) -> Option<MeterField>
    ensures { result ≡ by_register (left fields.entry) }
{
    let id = next_id(&mut fields)?;
    fields.at_end().then_some(MeterField::Register(id))
}

// The meter that a word begins, with the fields that follow it: of two words, a test each is plainer than a table.
fn read_meter_by_word(word: &[u8], fields: Fields<'_>) -> Option<MeterField>
    ensures { result ≡ and_then (named meters word.now) (λ read. read (left fields.entry)) }
{
    if is_word(word, b"index") {
        read_index(fields)
    } else if is_word(word, b"register") {
        read_register_id(fields)
    } else {
        None
    }
}

// A meter stands last in its line.
fn read_meter(mut fields: Fields<'_>) -> Option<MeterField>
    ensures { result ≡ meter (left fields.entry) }
{
    let word = fields.next_field()?;
    read_meter_by_word(word, fields)
}

fn read_issue(mut fields: Fields<'_>) -> Option<Command>
    ensures { result ≡ issue (left fields.entry) }
{
    Some(Command::Issue {
        place: next_u16(&mut fields)?,
        first: next_day(&mut fields)?,
        last: next_day(&mut fields)?,
        issued: next_day(&mut fields)?,
        meter: read_meter(fields)?,
    })
}

fn read_balance(mut fields: Fields<'_>) -> Option<Command>
    ensures { result ≡ balance (left fields.entry) }
{
    let command = Command::Balance {
        place: next_u16(&mut fields)?,
        year: next_u16(&mut fields)?,
    };
    fields.at_end().then_some(command)
}

// How the books of a log without a setup begin.
pub fn usual_beginning() -> Beginning
    ensures { result ≡ usual }
{
    Beginning {
        year: 2019,
        line: 1,
        intervals: MOST_INTERVALS,
        lines: MOST_LINES,
        lots: MOST_LOTS,
    }
}

// The command that a word begins, with the fields that follow it. Commands are a closed list: a match is plainer than a
// closure for each.
fn read_fields(keyword: Keyword, fields: Fields<'_>) -> Option<Command>
    ensures { result ≡ read_as keyword (left fields.entry) }
{
    match keyword {
        Keyword::Setup => read_setup(fields),
        Keyword::Enrol => read_enrol(fields),
        Keyword::Quota => read_quota(fields),
        Keyword::Price => read_price(fields),
        Keyword::Final => read_final(fields),
        Keyword::Forget => read_forget(fields),
        Keyword::Board => fields.at_end().then_some(Command::Board),
        Keyword::Notice => read_notice(fields),
        Keyword::Register => read_register(fields),
        Keyword::Hour => read_hour(fields),
        Keyword::Issue => read_issue(fields),
        Keyword::Balance => read_balance(fields),
        Keyword::Lines => fields.at_end().then_some(Command::Lines),
        Keyword::Intervals => fields.at_end().then_some(Command::Intervals),
    }
}

// The command that a line of the log is, or none where it is badly written.
pub fn read_command(line: &[u8]) -> Option<Command>
    ensures { result ≡ command line.now }
{
    let mut fields = Fields::of(line);
    let keyword = read_keyword(fields.next_field()?)?;
    read_fields(keyword, fields)
}

// Whether a line is empty or a remark, which is no command and gets no answer.
pub fn is_passed_over(line: &[u8]) -> bool
    ensures { result ≡ passed_over line.now }
{
    matches!(line, [] | [b'#', ..])
}
