//! Questions about the rows of points, each asked of the formulas of a program's code by a new solver.
#![tactic(auto)]

mod cut;
mod engine;
mod fitting;
mod indexes;
mod points;
mod questions;
mod tells;

pub use cut::Cut;
pub use engine::RowEngine;
pub use fitting::{is_form, is_point_of};
pub use indexes::goals_before;
pub use questions::breaks_check;
