// Meters: the kWh that a span of days used, where the meter can tell.
#![tactic(auto)]

mod held;
pub mod index;
pub mod meter;
pub mod register;

pub use held::IndexMeter;
pub use register::Register;
