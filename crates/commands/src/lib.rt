// The commands of a log, as they are read.
#![tactic(auto)]

mod command;
mod fields;
mod keyword;
mod reading;
mod vocabulary;

pub use command::{Beginning, Command, IndexReading, MeterField};
pub use reading::{is_passed_over, read_command, usual_beginning};
pub use vocabulary::Vocabulary;

#[cfg(test)]
mod tests;
