//! Goals of a program's cut runs, asked of the grown equations of its code.
#![tactic(auto)]

pub mod laws;
