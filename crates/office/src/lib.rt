// An office: what each command does, and what it is answered.
#![tactic(auto)]

mod asking;
mod beginning;
mod keeping;
mod obeying;
mod office;
mod registers;

pub use office::{Office, OfficeOf};
pub use registers::Registers;

#[cfg(test)]
mod tests;
