//! Which formulas have models, and what it says of a program that none has.
#![tactic(auto)]

pub mod laws;
