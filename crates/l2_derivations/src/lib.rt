//! Whether goals are refuted by their steps, with as many threads as there are jobs.
#![tactic(auto)]

mod goal;
mod halves;
mod runs;

pub use goal::GoalError;
pub use halves::check_goals;
pub use runs::{Gate, NoGate, Problem};
