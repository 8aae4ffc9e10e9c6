ghost use Rattle.std.specs.Prelude.{◌≡◌};
ghost use Rattle.journal.specs.Model.{model};
ghost use Rattle.office.specs.Desk.{desk, new_desk};

use super::office::OfficeOf;
use super::registers::Registers;
use books::Roll;
use journal::Journal;
use sources::Board;

impl<'a, const IDS: usize> OfficeOf<'a, IDS> {
    // An office that begins with these books: nobody is enrolled, and nothing was told or read.
    pub fn new(journal: Journal<'a>) -> OfficeOf<'a, IDS>
        ensures { desk result ≡ new_desk IDS (model journal.entry) }
    {
        OfficeOf {
            journal,
            roll: Roll::new(),
            board: Board::new(),
            registers: Registers::none(),
            notice: None,
        }
    }
}
