//! Laws of code that hold in every mode.
#![tactic(auto)]

pub mod laws;
