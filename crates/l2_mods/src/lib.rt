//! The objects that each loop of a program may change, and the variables that rows of its invariant may speak of.
#![tactic(auto)]

mod numbers;
mod program;
mod scope;
mod visit;
mod walk;

pub use program::with_loop_sets;
