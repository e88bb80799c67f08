//! What every model of a code's clauses has, and what a point's rankings say of two stores: functions without effect whose contracts are
//! the laws.
#![tactic(auto)]

pub mod laws;
