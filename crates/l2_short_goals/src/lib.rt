//! The formulas of a code's short runs, and the choices and turns that a model of one of them shows.
#![tactic(auto)]

mod filling;
mod finding;
mod making;
mod taking;

pub use making::{ShortGoals, short};
pub use taking::Taken;
