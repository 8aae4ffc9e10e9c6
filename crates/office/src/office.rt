use super::registers::Registers;
use books::Roll;
use journal::Journal;
use notice::Notice;
use sources::Board;

// An office, with registers for so many IDs: its journal, and what it keeps beside it. All of it is its owner's: between two
// commands each may be asked and called directly, taken out, and another put in its place.
#[derive(Drop)]
pub struct OfficeOf<'a, const IDS: usize> {
    pub journal: Journal<'a>,
    pub roll: Roll,
    pub board: Board,
    pub registers: Registers<IDS>,
    // The source of figures, where it is not the board.
    pub notice: Option<Notice>,
}

// An office whose log may name the registers 0 to 15.
pub type Office<'a> = OfficeOf<'a, 16>;
