//! What holds of a code's equations and its short runs.
#![tactic(auto)]

pub mod laws;
