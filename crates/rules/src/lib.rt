// What the journal holds, and what its calls mean.
#![tactic(auto)]

pub mod laws;
pub mod types;

pub use types::{Figures, Interval, Kind, Line, NO_INTERVAL, NO_LINE, Status, Supply};
