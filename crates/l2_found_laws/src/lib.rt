//! What a solution of the equations finds in a program's short runs: choices and turns on which the program breaks a check.
#![tactic(auto)]

pub mod laws;
