// Bytes to numbers, fields and lines, and numbers to bytes.
#![tactic(auto)]

mod fields;
mod lines;
mod numbers;
mod pieces;
mod writing;

pub use fields::{Fields, is_word};
pub use lines::{Line, Lines};
pub use numbers::{numbers_read_back, read_number};
pub use pieces::{Cut, cut_at, find_byte, pieces_make_the_text};
pub use writing::push_shown;

#[cfg(test)]
mod tests;
