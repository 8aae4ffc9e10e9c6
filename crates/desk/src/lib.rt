// What is written for each command of a log.
#![tactic(auto)]

mod answering;
mod rows;

pub use answering::{respond, respond_to_notice};

#[cfg(test)]
mod tests;
