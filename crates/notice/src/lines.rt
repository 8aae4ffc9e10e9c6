// The lines of a notice, read in one pass.
ghost use Rattle.std.specs.Prelude.{◌≡◌, ◌≤◌, length, IfOk};
ghost use Rattle.sources.specs.Board.{nothing};
ghost use Rattle.notice.specs.Notices.{pieces, read_lines, stated};

use crate::tables::{Place, Tables};
use notice_text::read_line;
use std::alloc::{AllocError, Global};
use text::Lines;

// The figures that the lines state, or the first fault, which is what the notice says from then on and is kept: only
// want of memory is an error.
#[tactic(auto, using(crate::proofs::Cutting::told_read, crate::proofs::Cutting::told_le))]
pub(crate) fn read_lines(heap: Global, text: &[u8]) -> Result<Result<Tables, Place>, AllocError>
    requires { length text.now ≤ 65536 }
    ensures { IfOk result (λ found. stated found ≡ read_lines 1 nothing (pieces text.now)) }
{
    let mut tables = Tables::new(heap);
    for (before, line) in Lines::of(text).enumerate() {
        match read_line(line, tables.last_dates()) {
            Ok(entry) => tables.keep(entry)?,
            Err(field) => {
                let line = before as u32 + 1;
                return Ok(Err(Place { line, field }));
            },
        }
    }
    Ok(Ok(tables))
}
