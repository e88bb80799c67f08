//! The code of a program reads and writes at constant addresses the cells of their types.
#![tactic(auto)]

pub mod laws;
