//! The equations of a code are typed.
#![tactic(auto)]

pub mod laws;
