//! Choices of a supply as values of the names that choices give.
#![tactic(auto)]

pub mod laws;
