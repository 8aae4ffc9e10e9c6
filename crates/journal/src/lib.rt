// The journal of certificate lines: its calls and its questions.
#![tactic(auto)]

mod admission;
mod booking;
mod calls;
mod held;
mod measuring;
mod questions;
mod survey;
#[cfg(test)]
mod tests;

pub use held::Journal;
