// The hourly register: the second make of meter.
mod asking;
pub mod day;
mod held;
mod laws;
mod reading;

pub use held::Register;
pub use laws::register_laws;

#[cfg(test)]
mod tests;
