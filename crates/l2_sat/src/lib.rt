//! The solver for files in this project's profile of DIMACS CNF: `solve FILE PROOF` and `check FILE PROOF`.
#![tactic(auto)]

mod answer;
mod checking;
mod commands;
mod formula_answer;
pub mod laws;
mod printing;
mod run;
mod solving;
mod status;

pub use run::sat_run;
pub use status::SatStatus;
