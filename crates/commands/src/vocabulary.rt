ghost use Rattle.std.specs.Prelude.{◌≡◌};
ghost use Rattle.commands.specs.Commands.{command};
ghost use Rattle.commands.specs.Vocabularies.{is_billing, known, knows};

use crate::command::{Command, MeterField};
use crate::reading::read_command;

// Which commands a program takes; to it the others are none.
#[derive(Clone, Copy, PartialEq, Debug)]
pub enum Vocabulary {
    // Setting up, enrolling, quotas, prices, issues by an index meter, and the questions.
    Billing,
    // All of them.
    Whole,
}

// Is it one of the commands of billing? All are named, so that a new one has to be placed.
fn is_billing(command: Command) -> bool
    ensures { result ≡ is_billing command }
{
    match command {
        Command::Setup(_)
        | Command::Enrol { .. }
        | Command::Quota { .. }
        | Command::Price { .. }
        | Command::Balance { .. }
        | Command::Lines
        | Command::Intervals => true,
        Command::Issue { meter, .. } => matches!(meter, MeterField::Index(_)),
        Command::Final { .. }
        | Command::Forget { .. }
        | Command::Board
        | Command::Notice { .. }
        | Command::Register { .. }
        | Command::Hour { .. } => false,
    }
}

impl Vocabulary {
    // Does it have the command?
    pub fn knows(self, command: Command) -> bool
        ensures { result ≡ knows self command }
    {
        match self {
            Vocabulary::Billing => is_billing(command),
            Vocabulary::Whole => true,
        }
    }

    // The command that a line of the log is, or none where it is badly written or not one of these.
    pub fn read(self, line: &[u8]) -> Option<Command>
        ensures { result ≡ known self (command line.now) }
    {
        read_command(line).filter(|command| self.knows(*command))
    }
}
