//! Questions about the turns of loops, each asked of the formulas of a program's code by a new solver.
#![tactic(auto)]

mod asking;
mod engine;
mod fills;
mod indexes;
mod ranked;
mod ranking;
mod tells;

pub use engine::TurnEngine;
pub use ranking::ranks_at;
