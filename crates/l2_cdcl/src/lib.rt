//! A conflict-driven clause learning solver.
#![tactic(auto)]

mod analysis;
mod answer;
mod engine;
mod hints;
mod log;
mod marks;
mod model;
mod redundant;
mod root;
mod shorten;
mod solve;
mod solver;
mod target;

pub use answer::{Answer, Core};
pub use solver::Solver;
