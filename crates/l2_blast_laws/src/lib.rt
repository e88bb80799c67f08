//! The models of a code's clauses are the solutions of its equations: functions without effect whose contracts are the laws.
#![tactic(auto)]

pub mod laws;
