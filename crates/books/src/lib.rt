// Books of records over a caller's slices, and the roll of the places.
#![tactic(auto)]

mod book;
pub mod dated;
pub mod enrolment;
mod roll;
#[cfg(test)]
mod tests;

pub use book::{Book, Full};
pub use dated::Dated;
pub use enrolment::{Enrolment, Place};
pub use roll::Roll;
