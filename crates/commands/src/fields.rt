// The next field of a line, as a command has it. Each takes one field and says so in a clause: through a closure that
// reads it would be no shorter.
ghost use Rattle.std.specs.Prelude.{◌≡◌, ◌≤◌, IfSome};
ghost use Rattle.text.specs.Taken.{after_next, left, read_next};
ghost use Rattle.commands.specs.Commands.{day, month, register_id, at_most, handed_on};

use calendar::dates::{DateFault, read_date, read_month};
use text::Fields;

// IDs of registers are below it.
const REGISTERS: u8 = 16;

// The next field as a number. One above is handed on as the most, by the format: the call refuses it there.
pub(crate) fn next_at_most(fields: &mut Fields<'_>, most: u32) -> Option<u32>
    ensures value { result ≡ read_next (at_most most) (left fields.old) }
    ensures bound { IfSome result (λ n. n ≤ most) }
    ensures after { left fields.new ≡ after_next (left fields.old) }
{
    Some(fields.next_number()?.min(most))
}

// The next field as a place or a year. It and `next_u8` are two widths of one function, `next_at_most`,
// as `next_day` and `next_month` are of `handed_on` with its reader.
pub(crate) fn next_u16(fields: &mut Fields<'_>) -> Option<u16>
    ensures value { result ≡ read_next (at_most 65535) (left fields.old) }
    ensures after { left fields.new ≡ after_next (left fields.old) }
{
    Some(next_at_most(fields, 65_535)? as u16)
}

// The next field as a percent or an hour.
pub(crate) fn next_u8(fields: &mut Fields<'_>) -> Option<u8>
    ensures value { result ≡ read_next (at_most 255) (left fields.old) }
    ensures after { left fields.new ≡ after_next (left fields.old) }
{
    Some(next_at_most(fields, 255)? as u8)
}

// The next field as the ID of a register.
pub(crate) fn next_id(fields: &mut Fields<'_>) -> Option<u8>
    ensures value { result ≡ read_next register_id (left fields.old) }
    ensures after { left fields.new ≡ after_next (left fields.old) }
{
    next_u8(fields).filter(|id| *id < REGISTERS)
}

// What a date or month is handed on as: the call refuses 0, which is none of the calendar.
fn handed_on(read: Result<u16, DateFault>) -> Option<u16>
    ensures { result ≡ handed_on read }
{
    match read {
        Ok(number) => Some(number),
        Err(DateFault::NoSuchDate) => Some(0),
        Err(DateFault::NotDigits) => None,
    }
}

// The next field as a day.
pub(crate) fn next_day(fields: &mut Fields<'_>) -> Option<u16>
    ensures value { result ≡ read_next day (left fields.old) }
    ensures after { left fields.new ≡ after_next (left fields.old) }
{
    handed_on(read_date(fields.next_field()?))
}

// The next field as a month.
pub(crate) fn next_month(fields: &mut Fields<'_>) -> Option<u16>
    ensures value { result ≡ read_next month (left fields.old) }
    ensures after { left fields.new ≡ after_next (left fields.old) }
{
    handed_on(read_month(fields.next_field()?))
}
