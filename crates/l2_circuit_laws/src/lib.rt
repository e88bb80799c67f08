//! What circuits on words compute, and that their clauses have models: functions without effect whose contracts are the laws.
#![tactic(auto)]

pub mod laws;
pub mod making;
pub mod shows;
