//! Literals that say of the variables of open rows what a point says of them.
#![tactic(auto)]

pub mod laws;
