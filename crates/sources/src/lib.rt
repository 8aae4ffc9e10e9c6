// Where a bill takes its quotas and prices from.
#![tactic(auto)]

mod asking;
pub mod current;
pub mod figures;
mod forgetting;
mod held;
mod keys;
mod laws;
mod lists;
mod telling;
mod told;
pub mod year_end;

pub use current::Current;
pub use held::Board;
pub use laws::board_laws;
pub use year_end::YearEnd;

#[cfg(test)]
mod tests;
