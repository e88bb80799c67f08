//! Equations that serve all points of a code, and the questions about cut runs that they answer.
#![tactic(auto)]

pub mod laws;
