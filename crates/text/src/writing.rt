// What values show, appended to bytes: all of it, or nothing where there is no memory. What each writer above promises
// is this, `appended`.
ghost use Rattle.std.specs.Prelude.{◌≡◌, IfSome, OnErr, is_ok};
ghost use Rattle.text.specs.Appended.{appended};

use std::alloc::AllocError;
use std::fmt::Display;

// Room for most rows, so that none grows as it is written.
const ROW: usize = 128;

// Appends what a value shows.
pub fn push_shown<T: Display + Drop>(out: &mut Vec<u8>, shown: T) -> Result<(), AllocError>
    ensures text { IfSome (T.output shown) (λ text. out.new.items ≡ appended (is_ok result) out.old.items text) }
    ensures stays { OnErr result (out.new.items ≡ out.old.items) }
{
    let mut text = String::with_capacity(*out.allocator(), ROW)?;
    text.write(shown)?;
    out.extend_from_slice(text.as_bytes())
}
