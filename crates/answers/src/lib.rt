// Answers to commands, and records, as they are written.
#![tactic(auto)]

mod answer;
mod shown;
mod writing;

pub use answer::Answer;
pub use writing::{push_answer, push_end, push_interval, push_line};

#[cfg(test)]
mod tests;
