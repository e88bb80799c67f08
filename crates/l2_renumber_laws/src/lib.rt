//! Rows of loops may go by other numbers, beside tests that always hold: cut runs end alike.
#![tactic(auto)]

pub mod laws;
