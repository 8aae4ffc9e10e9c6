// The lines of a notice, each read as the entry that it states.
#![tactic(auto)]

pub mod entry;
mod line;
mod reading;

pub use entry::{Dates, Entry, FaultyField};
pub use reading::read_line;
