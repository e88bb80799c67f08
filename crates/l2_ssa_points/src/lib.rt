//! What a point and rankings say of the equations of a code.
#![tactic(auto)]

pub mod laws;
