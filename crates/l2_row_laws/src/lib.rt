//! What an engine is to answer of a program's rows, and that the search by its answers comes to the program's strongest point.
#![tactic(auto)]

pub mod laws;
