//! Which words are refused, and why.
#![tactic(auto)]

pub mod laws;
