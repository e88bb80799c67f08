//! Runs of code by a supply of choices in the code's own shape.
#![tactic(auto)]

pub mod laws;
