ghost use Rattle.std.specs.Prelude.{◌≡◌};
ghost use Rattle.journal.specs.Model.{model};
ghost use Rattle.office.specs.Desk.{desk};

use super::office::OfficeOf;
use journal::Journal;

impl<'a, const IDS: usize> OfficeOf<'a, IDS> {
    // Its journal, to be asked.
    pub fn journal(&self) -> &Journal<'a>
        ensures { model result.now ≡ (desk self.now).books }
    {
        &self.journal
    }
}
