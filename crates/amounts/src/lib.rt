// Money and energy by rule, and the numbered refusals of every call.
#![tactic(auto)]

pub mod figures;
pub mod laws;
pub mod refusal;

pub use figures::{
    MAX_KWH, MAX_PRICE, MAX_QUOTA, charged, is_lawful_price, is_lawful_quota, mean_price, value,
};
pub use laws::{amounts_laws, outcomes_follow_tables, tables_give_the_smallest};
pub use refusal::Refusal;
