// A log of commands, taken line by line.
#![tactic(auto)]

mod log;

pub use log::{Entry, Log};
