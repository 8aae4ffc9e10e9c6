// A line of a notice, taken field by field.
ghost use Rattle.std.specs.Prelude.{◌≡◌, ◌≤◌};
ghost use Rattle.text.specs.Pieces.{fields};
ghost use Rattle.text.specs.Taken.{after_next, left};
ghost use Rattle.notice_text.specs.Lines.{next_text, close, text_of};

use crate::entry::FaultyField;
use text::{Fields, Line};

#[derive(Clone, Copy)]
pub(crate) struct LineFields<'a> {
    fields: Fields<'a>,
    // Whether the line has its byte 10.
    ended: bool,
}

impl<'a> LineFields<'a> {
    // All fields of a line.
    pub(crate) fn of(line: Line<'a>) -> LineFields<'a>
        ensures fields { left result.fields ≡ fields line.entry.text.now }
        ensures ended { result.ended ≡ line.entry.ended }
    {
        LineFields {
            fields: Fields::of(line.text),
            ended: line.ended,
        }
    }

    // The next field, which is field `n`.
    pub(crate) fn next(&mut self, n: u32) -> Result<&'a [u8], FaultyField>
        requires { 1 ≤ n }
        ensures value { text_of result ≡ next_text self.old.ended n (left self.old.fields) }
        ensures after { left self.new.fields ≡ after_next (left self.old.fields) }
        ensures same { self.new.ended ≡ self.old.ended }
    {
        let missing = if self.ended { n } else { n - 1 };
        self.fields.next_field().ok_or(missing)
    }

    // The end of the line, before any field `n`.
    pub(crate) fn close(self, n: u32) -> Result<(), FaultyField>
        requires { 1 ≤ n }
        ensures { result ≡ close self.entry.ended n (left self.entry.fields) tt }
    {
        if !self.fields.at_end() {
            return Err(n);
        }
        if !self.ended {
            return Err(n - 1);
        }
        Ok(())
    }
}
