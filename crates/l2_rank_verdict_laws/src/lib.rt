//! What it says that no lists of forms rank a program's loops: laws without code.
#![tactic(auto)]

pub mod laws;
