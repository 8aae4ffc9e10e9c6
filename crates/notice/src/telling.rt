ghost use Rattle.std.specs.Prelude.{◌≡◌, length, IfOk, nat_lt};
ghost use Rattle.notice.specs.Notices.{checked, read_notice, says};

use super::held::Notice;
use super::lines::read_lines;
use super::tables::Place;
use amounts::Refusal;
use std::alloc::{AllocError, Global};

// The most bytes of a notice.
pub const MOST_BYTES: usize = 65_536;

// Whether a text has more bytes than a notice may have.
fn is_too_long(text: &[u8]) -> bool
    ensures { result ≡ nat_lt 65536 (length text.now) }
{
    text.len() > MOST_BYTES
}

impl Notice {
    // Reads a text, once. There is an error only for want of memory.
    pub fn read(heap: Global, text: &[u8]) -> Result<Notice, AllocError>
        ensures { IfOk result (λ notice. says notice ≡ read_notice text.now) }
    {
        if is_too_long(text) {
            let found = Err(Place { line: 0, field: 0 });
            return Ok(Notice { found });
        }
        let found = read_lines(heap, text)?;
        Ok(Notice { found })
    }

    // Whether the text is lawful, or else the first faulty line and its first faulty field: by a match, since `map` and
    // `map_err` would say the same in two.
    pub fn check(&self) -> Result<(), Refusal>
        ensures { result ≡ checked (says self.now) }
    {
        match self.found {
            Ok(_) => Ok(()),
            Err(Place { line, field }) => Err(Refusal::FaultyNotice { line, field }),
        }
    }
}
