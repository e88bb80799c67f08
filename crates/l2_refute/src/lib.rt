//! Steps that refute goals: the logs of solvers.
#![tactic(auto)]

mod refuting;

pub use refuting::refute_goals;
