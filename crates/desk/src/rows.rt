// Records of the journal, each a row of the answers.
ghost use Rattle.std.specs.Prelude.{◌≡◌, ℕ, List};
ghost use Rattle.std.specs.List.{flat_map};
ghost use Rattle.answers.specs.Answers.{interval_text, line_text};
ghost use Rattle.answers.specs.Rows.{Writes};

use answers::{push_interval, push_line};
use rules::{Interval, Line};
use std::alloc::AllocError;

// A record with a row of its own. The trait stands here, since one record alone needs none.
pub(crate) trait Row {
    ghost text: { Self → List ℕ };

    // Appends its row.
    fn push(&self, out: &mut Vec<u8>) -> Result<(), AllocError>
        ensures { Writes result out.old.items out.new.items (text self.now) };
}

impl Row for Line {
    ghost text = { line_text };

    fn push(&self, out: &mut Vec<u8>) -> Result<(), AllocError> {
        push_line(out, self)
    }
}

impl Row for Interval {
    ghost text = { interval_text };

    fn push(&self, out: &mut Vec<u8>) -> Result<(), AllocError> {
        push_interval(out, self)
    }
}

// Appends the rows of all records.
#[tactic(auto, using(std::proofs::lemmas::Grind::text_groups))]
pub(crate) fn push_rows<R: Row>(out: &mut Vec<u8>, records: &[R]) -> Result<(), AllocError>
    ensures { Writes result out.old.items out.new.items (flat_map R.text records.now) }
{
    for record in records {
        record.push(out)?;
    }
    Ok(())
}
