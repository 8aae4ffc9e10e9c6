// The parts of a supply: neighbouring days with one quota and one percent, their price and their kWh.
#![tactic(auto)]

pub mod cutting;
pub mod metering;
pub mod pricing;
pub mod types;

pub use types::{Part, Parts};

#[cfg(test)]
mod tests;
