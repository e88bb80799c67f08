//! Formulas in this project's profile of DIMACS CNF.
#![tactic(auto)]

mod cursor;
pub mod laws;
mod number;
mod reader;
mod reading;
mod tokens;

pub use reader::{DimacsError, Formula, read};
