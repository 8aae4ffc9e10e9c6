// Notices: figures told by a text, one to a line.
#![tactic(auto)]

mod asking;
pub mod held;
mod keeping;
mod lines;
mod table;
mod tables;
mod telling;

pub use held::Notice;
pub use telling::MOST_BYTES;

#[cfg(test)]
mod tests;
