//! What the answers say of a program: laws without code.
#![tactic(auto)]

pub mod laws;
