//! The formulas of a code at a point: for each goal the clauses that all goals have, and a last one.
#![tactic(auto)]

mod clauses;
mod filling;
mod lists;
mod making;
mod numbering;

pub use clauses::Endings;
pub use filling::PointFill;
pub use lists::check_list;
pub use making::{GoalError, Goals, formulas_with, goals_of};
